//! The names of a line, with or without quotation marks, and lists of them. Each reader gives a
//! value and the bytes after it, or `LineError::SYNTAX` where the bytes begin with none;
//! `LineError::Memory` where a growth was refused.

ghost use Rattle.std.specs.Prelude.{◌≡◌, true, IfOk, IfSome};
ghost use Rattle.wit_model.specs.Rules.Names.{is_name, is_file_name};
ghost use Rattle.wit_model.specs.Trace.Reading.{parted_at_last, accepted, site_of, field_at};
ghost use Rattle.wit_model.specs.Trace.Reading.{leading_quoted, optional, leading_type, whole_list};
ghost use Rattle.wit_fields.specs.Fields.{Gives, IsKnownAs};

use crate::errors::LineError;
use crate::numbers::number_of;
use crate::words::{class, long_word, skip, split_before};
use std::alloc::Global;
use std::str;
use wit_model::{Class, FileName, FileNo, Name, TypeList};

/// The bytes before a byte's last place, and those after it.
#[inline(always)]
fn split_at_last(byte: u8, word: &[u8]) -> Result<(&[u8], &[u8]), LineError>
    ensures { Gives (λ field. (field.0.now, field.1.now)) result (parted_at_last byte word.now) }
{
    for i in (0..word.len()).rev() {
        if word[i] == byte {
            return Ok((&word[..i], &word[i + 1..]));
        }
    }
    Err(LineError::SYNTAX)
}

fn name_of(alloc: Global, bytes: &[u8]) -> Result<Name, LineError>
    ensures { Gives (λ n. n) result (accepted is_name bytes.now) }
{
    let Ok(text) = str::from_utf8(bytes) else {
        return Err(LineError::SYNTAX);
    };
    match Name::new(alloc, text)? {
        Some(name) => Ok(name),
        None => Err(LineError::SYNTAX),
    }
}

// A file name, with its number where it is the known one: most sites name that, which isn't tested
// byte by byte.
#[inline(always)]
fn file_name_of<'a>(
    known: Option<(FileNo, &str)>,
    bytes: &'a [u8],
) -> Result<(&'a str, Option<FileNo>), LineError>
    requires { IfSome known (λ k. is_file_name k.1.now ≡ true) }
    ensures value { Gives (λ n. n.0.now) result (accepted is_file_name bytes.now) }
    ensures known { IfOk result (λ n. IfSome n.1 (IsKnownAs known.entry n.0.now)) }
{
    if let Some(number) = known_number(known, bytes) {
        // Safety: a file name is ASCII.
        return Ok((unsafe { str::from_utf8_unchecked(bytes) }, Some(number)));
    }
    Ok((any_file_name(bytes)?, None))
}

// The number of the known file, where this is its name.
#[inline(always)]
fn known_number(known: Option<(FileNo, &str)>, bytes: &[u8]) -> Option<FileNo>
    requires { IfSome known (λ k. is_file_name k.1.now ≡ true) }
    ensures name { IfSome result (λ _. is_file_name bytes.now ≡ true) }
    ensures known { IfSome result (IsKnownAs known.entry bytes.now) }
{
    match known {
        Some((number, name)) if name.as_bytes() == bytes => Some(number),
        _ => None,
    }
}

fn any_file_name(bytes: &[u8]) -> Result<&str, LineError>
    ensures { Gives (λ n. n.now) result (accepted is_file_name bytes.now) }
{
    let Ok(text) = str::from_utf8(bytes) else {
        return Err(LineError::SYNTAX);
    };
    if !FileName::accepts(text) {
        return Err(LineError::SYNTAX);
    }
    Ok(text)
}

/// A name between quotation marks.
#[tactic(auto, unfolding(wit_model::specs::Trace::Reading::leading_quoted))]
pub fn name(alloc: Global, bytes: &[u8]) -> Result<(Name, &[u8]), LineError>
    ensures { Gives (λ field. (field.0, field.1.now)) result (leading_quoted bytes.now) }
{
    let opened = skip(b' ', bytes)?;
    let inside = skip(b'"', opened)?;
    let (text, rest) = split_before(b'"', inside);
    let name = name_of(alloc, text)?;
    let rest = skip(b'"', rest)?;
    Ok((name, rest))
}

/// A name, or none at the end of the line.
pub fn name_if_any(alloc: Global, bytes: &[u8]) -> Result<(Option<Name>, &[u8]), LineError>
    ensures { Gives (λ field. (field.0, field.1.now)) result (optional leading_quoted bytes.now) }
{
    if bytes.is_empty() {
        return Ok((None, bytes));
    }
    let (name, rest) = name(alloc, bytes)?;
    Ok((Some(name), rest))
}

/// A type by its class and its name.
#[tactic(auto, unfolding(wit_model::specs::Trace::Reading::leading_type))]
fn listed_type(alloc: Global, bytes: &[u8]) -> Result<(Class, Name, &[u8]), LineError>
    ensures { Gives (λ field. ((field.0, field.1), field.2.now)) result (leading_type bytes.now) }
{
    let (class, rest) = class(bytes)?;
    let (name, rest) = name(alloc, rest)?;
    Ok((class, name, rest))
}

/// One type or more, up to the end of the line.
#[tactic(auto, using(crate::proofs::ListReading::no_first, crate::proofs::ListReading::reads_first, crate::proofs::ListReading::reads_next, crate::proofs::ListReading::reads_none, crate::proofs::ListReading::reads_end, wit_model::proofs::Spelling::Kinds::type_shorter))]
pub fn list(alloc: Global, bytes: &[u8]) -> Result<TypeList, LineError>
    ensures { Gives (λ l. l) result (whole_list bytes.now) }
{
    let mut list = TypeList::new(alloc);
    let (class, name, mut rest) = listed_type(alloc, bytes)?;
    list.push(class, name)?;
    while !rest.is_empty() {
        let (class, name, others) = listed_type(alloc, rest)?;
        list.push(class, name)?;
        rest = others;
    }
    Ok(list)
}

/// A file and a line, 0 to 4,294,967,295, as `FILE:LINE`: the line stands behind the last colon.
/// The file has its number with it where it is the known one, which most sites name. The known name
/// is a file name.
#[tactic(auto, unfolding(wit_model::specs::Trace::Reading::site_of))]
#[inline(always)]
pub fn site<'a>(
    known: Option<(FileNo, &str)>,
    bytes: &'a [u8],
) -> Result<(&'a str, Option<FileNo>, u32, &'a [u8]), LineError>
    requires { IfSome known (λ k. is_file_name k.1.now ≡ true) }
    ensures value { Gives (λ field. ((field.0.now, field.2), field.3.now)) result
        (field_at site_of bytes.now) }
    ensures known { IfOk result (λ field. IfSome field.1 (IsKnownAs known.entry field.0.now)) }
{
    let (word, rest) = long_word(bytes)?;
    let (file, line) = split_at_last(b':', word)?;
    let (file, number) = file_name_of(known, file)?;
    let line = number_of(u32::MAX, line)?;
    Ok((file, number, line, rest))
}
