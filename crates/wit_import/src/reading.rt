//! Reading a line of a script.

ghost use Rattle.std.specs.Prelude.{◌≡◌, drop, IfOk};
ghost use Rattle.wit_fields.specs.Fields.{Gives};
ghost use Rattle.wit_model.specs.Rules.Names.{is_file_name, is_name};
ghost use Rattle.wit_model.specs.Trace.Reading.{accepted, class_named, field_at};
ghost use Rattle.wit_import.specs.Reading.{acquisition_of, beginning, class_written, event_of};
ghost use Rattle.wit_import.specs.Reading.{keyword_named, place_named, plain_line, release_of};
ghost use Rattle.wit_import.specs.Reading.{sharing_named, type_named, type_with};

use crate::events::{Acquisition, Event, Release, Sharing};
use crate::words::Word;
use std::alloc::{AllocError, Global};
use std::str;
use wit_fields::LineError;
use wit_fields::names::site;
use wit_fields::words::{split_before, word};
use wit_model::{Class, FileName, Name};

/// The first word of a line that tells something.
#[derive(Clone, Copy, Debug, PartialEq, Eq)]
pub enum Keyword {
    /// `req`.
    Req,
    /// `acq`.
    Acq,
    /// `try`.
    Try,
    /// `rel`.
    Rel,
    /// `Lost`.
    Lost,
}

/// What a line tells, of at most 4,096 bytes and without its line feed: nothing where it doesn't
/// begin with a keyword.
///
/// # Errors
/// `Bad(Cause::Syntax)` where it begins with a keyword and has not its fields; `Memory` where a
/// growth was refused.
#[tactic(auto, unfolding(crate::specs::Reading::plain_line))]
pub fn plain_line(alloc: Global, bytes: &[u8]) -> Result<Option<Event>, LineError>
    ensures { Gives (λ event. event) result (plain_line bytes.now) }
{
    let (word, rest) = split_before(b' ', bytes);
    event_of(alloc, keyword_of(word), rest)
}

fn event_of(
    alloc: Global,
    keyword: Option<Keyword>,
    bytes: &[u8],
) -> Result<Option<Event>, LineError>
    ensures { Gives (λ event. event) result (event_of keyword bytes.now) }
{
    match keyword {
        None => Ok(None),
        Some(Keyword::Req) => Ok(Some(Event::Asks(acquisition(alloc, bytes)?))),
        Some(Keyword::Acq) => Ok(Some(Event::Gets(acquisition(alloc, bytes)?))),
        Some(Keyword::Try) => Ok(Some(Event::Tries(acquisition(alloc, bytes)?))),
        Some(Keyword::Rel) => Ok(Some(Event::Releases(release(alloc, bytes)?))),
        Some(Keyword::Lost) => Ok(Some(Event::Loses)),
    }
}

#[tactic(auto, unfolding(crate::specs::Reading::keyword_named))]
fn keyword_of(word: &[u8]) -> Option<Keyword>
    ensures { result ≡ keyword_named word.now }
{
    match word {
        b"req" => Some(Keyword::Req),
        b"acq" => Some(Keyword::Acq),
        b"try" => Some(Keyword::Try),
        b"rel" => Some(Keyword::Rel),
        b"Lost" => Some(Keyword::Lost),
        _ => None,
    }
}

// The fields of a line by which a thread asks for a lock or acquires it.
#[tactic(auto, unfolding(crate::specs::Reading::acquisition_of))]
fn acquisition(alloc: Global, bytes: &[u8]) -> Result<Acquisition, LineError>
    ensures { Gives (λ a. a) result (acquisition_of bytes.now) }
{
    let (thread, rest) = word(bytes)?;
    let (lock, rest) = word(rest)?;
    let (class, name, rest) = type_field(alloc, rest)?;
    let (sharing, rest) = sharing(rest)?;
    let (file, line, rest) = place(alloc, rest)?;
    if !rest.is_empty() {
        return Err(LineError::SYNTAX);
    }
    Ok(Acquisition {
        thread: Word::new(alloc, thread)?,
        lock: Word::new(alloc, lock)?,
        class,
        name,
        sharing,
        file,
        line,
    })
}

// The fields of a line by which a thread releases a lock.
#[tactic(auto, unfolding(crate::specs::Reading::release_of))]
fn release(alloc: Global, bytes: &[u8]) -> Result<Release, LineError>
    ensures { Gives (λ r. r) result (release_of bytes.now) }
{
    let (thread, rest) = word(bytes)?;
    let (lock, _rest) = word(rest)?;
    Ok(Release {
        thread: Word::new(alloc, thread)?,
        lock: Word::new(alloc, lock)?,
        name: name_if_any(alloc, beginning(lock))?,
    })
}

// The name that these bytes are, if they are one.
fn name_if_any(alloc: Global, bytes: &[u8]) -> Result<Option<Name>, AllocError>
    ensures { IfOk result (λ name. name ≡ accepted is_name bytes.now) }
{
    match name_of(alloc, bytes) {
        Ok(name) => Ok(Some(name)),
        Err(LineError::Bad(_)) => Ok(None),
        Err(LineError::Memory) => Err(AllocError),
    }
}

// A type by its class and its name.
fn type_field(alloc: Global, bytes: &[u8]) -> Result<(Class, Name, &[u8]), LineError>
    ensures { Gives (λ field. ((field.0, field.1), field.2.now)) result
        (field_at type_named bytes.now) }
{
    let (word, rest) = word(bytes)?;
    let (class, name) = type_of(alloc, word)?;
    Ok((class, name, rest))
}

#[tactic(auto, unfolding(crate::specs::Reading::type_named))]
fn type_of(alloc: Global, word: &[u8]) -> Result<(Class, Name), LineError>
    ensures { Gives (λ field. field) result (type_named word.now) }
{
    let (front, behind) = split_before(b':', word);
    match class_of(front) {
        None => type_with(alloc, Class::Sx, word),
        Some(class) => type_with(alloc, class, behind_one(behind)),
    }
}

fn behind_one(bytes: &[u8]) -> &[u8]
    ensures { result.now ≡ drop 1 bytes.now }
{
    match bytes {
        [] => bytes,
        [_, rest @ ..] => rest,
    }
}

#[tactic(auto, unfolding(wit_model::specs::Trace::Reading::class_named))]
fn class_of(word: &[u8]) -> Option<Class>
    ensures { result ≡ class_named word.now }
{
    match word {
        b"mtx" => Some(Class::SleepMutex),
        b"spin" => Some(Class::SpinMutex),
        b"rw" => Some(Class::Rw),
        b"sx" => Some(Class::Sx),
        _ => None,
    }
}

fn type_with(alloc: Global, class: Class, bytes: &[u8]) -> Result<(Class, Name), LineError>
    ensures { Gives (λ field. field) result (type_with class bytes.now) }
{
    let name = name_of(alloc, beginning(bytes))?;
    Ok((class_written(class), name))
}

fn beginning(name: &[u8]) -> &[u8]
    ensures { result.now ≡ beginning name.now }
{
    if name.len() <= Name::MOST {
        name
    } else {
        name.split_at(Name::MOST).0
    }
}

fn class_written(class: Class) -> Class
    ensures { result ≡ class_written class }
{
    match class {
        Class::SpinMutex => Class::SleepMutex,
        Class::SleepMutex | Class::Rw | Class::Sx => class,
    }
}

fn name_of(alloc: Global, bytes: &[u8]) -> Result<Name, LineError>
    ensures { Gives (λ name. name) result (accepted is_name bytes.now) }
{
    let Ok(text) = str::from_utf8(bytes) else {
        return Err(LineError::SYNTAX);
    };
    match Name::new(alloc, text)? {
        Some(name) => Ok(name),
        None => Err(LineError::SYNTAX),
    }
}

#[tactic(auto, unfolding(crate::specs::Reading::sharing_named))]
fn sharing(bytes: &[u8]) -> Result<(Sharing, &[u8]), LineError>
    ensures { Gives (λ field. (field.0, field.1.now)) result (field_at sharing_named bytes.now) }
{
    let (word, rest) = word(bytes)?;
    match word {
        b"x" => Ok((Sharing::Exclusive, rest)),
        b"s" => Ok((Sharing::Shared, rest)),
        b"r" => Ok((Sharing::Recursive, rest)),
        _ => Err(LineError::SYNTAX),
    }
}

// A place by its file and its line.
#[tactic(auto, unfolding(crate::specs::Reading::place_named))]
fn place(alloc: Global, bytes: &[u8]) -> Result<(FileName, u32, &[u8]), LineError>
    ensures { Gives (λ field. ((field.0, field.1), field.2.now)) result
        (field_at place_named bytes.now) }
{
    let (word, rest) = word(bytes)?;
    match site(None, bytes) {
        Ok((file, _, line, _)) => Ok((FileName::new(alloc, file)?, line, rest)),
        Err(LineError::Memory) => Err(LineError::Memory),
        Err(LineError::Bad(_)) => Ok((file_of(alloc, word)?, 0, rest)),
    }
}

fn file_of(alloc: Global, bytes: &[u8]) -> Result<FileName, LineError>
    ensures { Gives (λ file. file) result (accepted is_file_name bytes.now) }
{
    let Ok(text) = str::from_utf8(bytes) else {
        return Err(LineError::SYNTAX);
    };
    if !FileName::accepts(text) {
        return Err(LineError::SYNTAX);
    }
    Ok(FileName::new(alloc, text)?)
}
