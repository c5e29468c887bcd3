//! Putting the fields of a line behind one another, each behind its own space.

ghost use Rattle.std.specs.Prelude.{◌≡◌, ◌++◌, ◌∷◌, OnOk};
ghost use Rattle.std.specs.Fmt.{decimal};
ghost use Rattle.wit_model.specs.Trace.Spelling.{keyword_text, version_text, class_text, mode_text};
ghost use Rattle.wit_model.specs.Trace.Spelling.{level_text, chosen_letters, flags_text, quoted};
ghost use Rattle.wit_model.specs.Trace.Spelling.{site_text, spaced, lock_fields, list_fields};

use crate::keywords::keyword_text;
use std::alloc::AllocError;
use wit_fields::letters;
use wit_model::{Class, FileName, Keyword, LockNo, Mode, Name, NewLock, SeatNo, Version, Watch};

/// A word.
pub fn put_word(out: &mut Vec<u8>, word: &[u8]) -> Result<(), AllocError>
    ensures { OnOk result (out.new.items ≡ out.old.items ++ 32 ∷ word.now) }
{
    out.push(b' ')?;
    out.extend_from_slice(word)
}

/// A number.
pub fn put_number(out: &mut Vec<u8>, number: u32) -> Result<(), AllocError>
    ensures { OnOk result (out.new.items ≡ out.old.items ++ 32 ∷ decimal number) }
{
    out.push(b' ')?;
    put_digits(out, number)
}

// Digit by digit, where they are to stand: a text of its own would take memory.
#[tactic(auto, using(std::proofs::lemmas::Fmt::decimal_digit))]
fn put_digits(out: &mut Vec<u8>, number: u32) -> Result<(), AllocError>
    ensures { OnOk result (out.new.items ≡ out.old.items ++ decimal number) }
{
    if number < 10 {
        out.push(b'0' + number as u8)?;
        return Ok(());
    }
    put_digits(out, number / 10)?;
    out.push(b'0' + (number % 10) as u8)?;
    Ok(())
}

/// A number behind a fixed word.
pub fn put_count(out: &mut Vec<u8>, label: &[u8], number: u32) -> Result<(), AllocError>
    ensures { OnOk result (out.new.items
        ≡ out.old.items ++ 32 ∷ (label.now ++ 32 ∷ decimal number)) }
{
    put_word(out, label)?;
    put_number(out, number)
}

/// The keyword, the seat and the lock of a call.
pub fn put_call(
    out: &mut Vec<u8>,
    keyword: Keyword,
    seat: SeatNo,
    lock: LockNo,
) -> Result<(), AllocError>
    ensures { OnOk result (out.new.items ≡ out.old.items
        ++ (keyword_text keyword ++ 32 ∷ (decimal seat.0 ++ 32 ∷ decimal lock.0))) }
{
    out.extend_from_slice(keyword_text(keyword))?;
    put_number(out, u32::from(seat.0))?;
    put_number(out, lock.0)
}

fn put_letters(out: &mut Vec<u8>, letters: &[u8], bits: u8) -> Result<(), AllocError>
    ensures { OnOk result (out.new.items ≡ out.old.items ++ chosen_letters letters.now bits) }
{
    match letters {
        [] => Ok(()),
        [letter, others @ ..] => {
            if bits % 2 == 1 {
                out.push(*letter)?;
                put_letters(out, others, bits / 2)
            } else {
                put_letters(out, others, bits / 2)
            }
        }
    }
}

/// Flags, by these letters.
pub fn put_flags(out: &mut Vec<u8>, letters: &[u8], bits: u8) -> Result<(), AllocError>
    ensures { OnOk result (out.new.items ≡ out.old.items ++ 32 ∷ flags_text letters.now bits) }
{
    if bits == 0 {
        return put_word(out, b"-");
    }
    out.push(b' ')?;
    put_letters(out, letters, bits)
}

/// A name between quotation marks.
pub fn put_name(out: &mut Vec<u8>, name: &Name) -> Result<(), AllocError>
    ensures { OnOk result (out.new.items ≡ out.old.items ++ 32 ∷ quoted name.now) }
{
    put_word(out, b"\"")?;
    out.extend_from_slice(name.as_str().as_bytes())?;
    out.push(b'"')?;
    Ok(())
}

/// Types, each by its class and its name.
pub fn put_types(out: &mut Vec<u8>, types: &[(Class, Name)]) -> Result<(), AllocError>
    ensures { OnOk result (out.new.items ≡ out.old.items ++ spaced (list_fields types.now)) }
{
    match types {
        [] => Ok(()),
        [(class, name), others @ ..] => {
            put_word(out, class_text(*class))?;
            put_name(out, name)?;
            put_types(out, others)
        }
    }
}

/// The fields of `init` behind the seat.
pub fn put_lock(out: &mut Vec<u8>, lock: &NewLock) -> Result<(), AllocError>
    ensures { OnOk result (out.new.items ≡ out.old.items ++ spaced (lock_fields lock.now)) }
{
    put_word(out, class_text(lock.class))?;
    put_flags(out, letters::LOCK, lock.flags.0)?;
    put_name(out, &lock.name)?;
    match &lock.type_name {
        None => Ok(()),
        Some(name) => put_name(out, name),
    }
}

/// A place in the watched program.
pub fn put_site(out: &mut Vec<u8>, file: &FileName, line: u32) -> Result<(), AllocError>
    ensures { OnOk result (out.new.items ≡ out.old.items ++ 32 ∷ site_text file.now line) }
{
    put_word(out, file.as_str().as_bytes())?;
    out.push(b':')?;
    put_digits(out, line)
}

/// The spelling of a version of the format.
pub fn version_text(version: Version) -> &'static [u8]
    ensures { result.now ≡ version_text version }
{
    match version {
        Version::One => b"1",
        Version::Two => b"2",
    }
}

/// The spelling of a class.
pub fn class_text(class: Class) -> &'static [u8]
    ensures { result.now ≡ class_text class }
{
    match class {
        Class::SleepMutex => b"mtx",
        Class::SpinMutex => b"spin",
        Class::Rw => b"rw",
        Class::Sx => b"sx",
    }
}

/// The spelling of a mode.
pub fn mode_text(mode: Mode) -> &'static [u8]
    ensures { result.now ≡ mode_text mode }
{
    match mode {
        Mode::Shared => b"s",
        Mode::Exclusive => b"x",
    }
}

/// The spelling of a watch level.
pub fn level_text(watch: Watch) -> &'static [u8]
    ensures { result.now ≡ level_text watch }
{
    match watch {
        Watch::On => b"1",
        Watch::Quiet => b"0",
        Watch::Off => b"-1",
    }
}
