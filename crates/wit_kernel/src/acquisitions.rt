//! What was gathered, as events of an import.

ghost use Rattle.std.specs.Prelude.{◌≡◌, ◌++◌, IfOk, OnOk, map};
ghost use Rattle.wit_model.specs.Rules.Names.{is_file_name, is_name};
ghost use Rattle.wit_model.specs.Trace.Reading.{accepted};
ghost use Rattle.wit_gathered.specs.Gathering.{gathered};
ghost use Rattle.wit_gathered.specs.Naming.{names};
ghost use Rattle.wit_kernel.specs.Acquisitions.{acquisition, bounded, class_of, clean, place_text};
ghost use Rattle.wit_kernel.specs.Acquisitions.{released, released_text, released_type, site_of, site_with};
ghost use Rattle.wit_traced.specs.Numbers.{decimal as number_of};

use std::alloc::{AllocError, Global};
use std::str;
use wit_gathered::{Gathering, LockClass, Named, Naming, Step};
use wit_import::{Acquisition, LockType, Sharing, Word};
use wit_model::{Class, FileName, Name};
use wit_traced::{before_last, behind_last, decimal};

// A name and a place have so many bytes at most.
const LONGEST_NAME: usize = 63;

const LONGEST_PLACE: usize = 255;

/// What a request holds or asks for. All of it is one thread's, and each lock is one by itself.
///
/// # Errors
/// Want of memory alone.
pub fn acquisition(
    alloc: Global,
    gathering: &Gathering,
    naming: &Naming,
    step: &Step,
) -> Result<Option<Acquisition>, AllocError>
    ensures { IfOk result (λ a. a
        ≡ acquisition (names naming.now) (gathered gathering.now).places step.now) }
{
    let named = naming.named(step.of)?;
    let place = place_text(alloc, gathering, step.place)?;
    let (file, line) = site_of(place.as_slice());
    let Some(name) = name_of(alloc, named.name.as_slice())? else {
        return Ok(None);
    };
    let Some(file) = file_of(alloc, file)? else {
        return Ok(None);
    };
    Ok(Some(Acquisition {
        thread: Word::new(alloc, b"1")?,
        lock: Word::new(alloc, b"1")?,
        class: class_of(named.class),
        name,
        sharing: Sharing::Exclusive,
        file,
        line,
    }))
}

/// The type of a lock that is released and that nobody holds: its name says where.
///
/// # Errors
/// Want of memory alone.
pub fn released(
    alloc: Global,
    gathering: &Gathering,
    naming: &Naming,
    step: &Step,
) -> Result<Option<LockType>, AllocError>
    ensures { IfOk result (λ of. of
        ≡ released (names naming.now) (gathered gathering.now).places step.now) }
{
    let named = naming.named(step.of)?;
    let place = place_text(alloc, gathering, step.place)?;
    released_type(alloc, &named, place.as_slice())
}

fn released_type(alloc: Global, named: &Named, place: &[u8]) -> Result<Option<LockType>, AllocError>
    ensures { IfOk result (λ of. of
        ≡ released_type (named.now.class, named.now.name.items) place.now) }
{
    let text = released_text(alloc, named.name.as_slice(), place)?;
    let class = class_of(named.class);
    match name_of(alloc, text.as_slice())? {
        Some(name) => Ok(Some(LockType { class, name })),
        None => Ok(None),
    }
}

#[tactic(auto, unfolding(crate::specs::Acquisitions::released_text))]
fn released_text(alloc: Global, name: &[u8], place: &[u8]) -> Result<Vec<u8>, AllocError>
    ensures { IfOk result (λ text. text.items ≡ released_text name.now place.now) }
{
    let mut text = Vec::from_slice(alloc, name)?;
    text.extend_from_slice(b", released at ")?;
    text.extend_from_slice(place)?;
    text.truncate(LONGEST_NAME);
    Ok(text)
}

fn name_of(alloc: Global, bytes: &[u8]) -> Result<Option<Name>, AllocError>
    ensures { IfOk result (λ name. name ≡ accepted is_name bytes.now) }
{
    let Ok(text) = str::from_utf8(bytes) else {
        return Ok(None);
    };
    Name::new(alloc, text)
}

fn file_of(alloc: Global, bytes: &[u8]) -> Result<Option<FileName>, AllocError>
    ensures { IfOk result (λ file. file ≡ accepted is_file_name bytes.now) }
{
    let Ok(text) = str::from_utf8(bytes) else {
        return Ok(None);
    };
    if !FileName::accepts(text) {
        return Ok(None);
    }
    Ok(Some(FileName::new(alloc, text)?))
}

fn class_of(class: LockClass) -> Class
    ensures { result ≡ class_of class }
{
    match class {
        LockClass::Mutex => Class::SleepMutex,
        LockClass::Readers => Class::Rw,
        LockClass::Sleeping => Class::Sx,
    }
}

// A place, of such bytes as a trace may have. Where there is none, an interrupt begins.
fn place_text(alloc: Global, gathering: &Gathering, number: usize) -> Result<Vec<u8>, AllocError>
    ensures { IfOk result (λ text. text.items ≡ place_text (gathered gathering.now).places number) }
{
    let Some(place) = gathering.place(number) else {
        return Vec::from_slice(alloc, b"irq");
    };
    let mut text = Vec::new(alloc);
    put_clean(&mut text, place)?;
    text.truncate(LONGEST_PLACE);
    if text.is_empty() {
        text.push(b'?')?;
    }
    Ok(text)
}

fn put_clean(text: &mut Vec<u8>, place: &[u8]) -> Result<(), AllocError>
    ensures { OnOk result (text.new.items ≡ text.old.items ++ map clean place.now) }
{
    match place {
        [] => Ok(()),
        [byte, others @ ..] => {
            text.push(clean(*byte))?;
            put_clean(text, others)
        }
    }
}

// A file and a line, where a number stands behind the last colon. Else the line is 0.
fn site_of(place: &[u8]) -> (&[u8], u32)
    ensures { (result.0.now, result.1) ≡ site_of place.now }
{
    match (before_last(b':', place), behind_last(b':', place)) {
        (Some(file), Some(text)) => site_with(place, file, line_of(text)),
        _ => (place, 0),
    }
}

fn site_with<'a>(place: &'a [u8], file: &'a [u8], line: Option<u32>) -> (&'a [u8], u32)
    ensures { (result.0.now, result.1) ≡ site_with place.now file.now line }
{
    match line {
        Some(line) if !file.is_empty() => (file, line),
        _ => (place, 0),
    }
}

fn line_of(text: &[u8]) -> Option<u32>
    ensures { result ≡ bounded (number_of text.now) }
{
    match decimal(text) {
        Some(number) if number <= u64::from(u32::MAX) => Some(number as u32),
        _ => None,
    }
}

fn clean(byte: u8) -> u8
    ensures { result ≡ clean byte }
{
    match byte {
        b'"' => b'_',
        b'!'..=b'~' => byte,
        _ => b'_',
    }
}
