//! How a line begins: its first word is read once, whatever the line is.

ghost use Rattle.std.specs.Prelude.{◌≡◌, ◌++◌, Option, IfSome, Some, codes, drop, true};
ghost use Rattle.wit_model.specs.declared.lines.Keyword.TheVariants.{Check, Unlock, Plain, Take};
ghost use Rattle.wit_model.specs.declared.lines.Keyword.TheVariants.{Free};
ghost use Rattle.wit_model.specs.declared.lines.Line.{Line};
ghost use Rattle.wit_model.specs.declared.lines.Verb.TheVariants.{Note};
ghost use Rattle.wit_model.specs.Trace.Reading.{line_of};
ghost use Rattle.wit_fields.specs.Fields.{Gives};
ghost use Rattle.wit_grammar.specs.Lines.{GivesIfFound, Begins, as_line};

use crate::keywords::keyword_of;
use crate::lock_lines::{plain, step, try_lock, try_take};
use crate::parse::fields;
use std::alloc::Global;
use wit_fields::{LineError, words};
use wit_model::{Keyword, Line, LockLine, RawStep, Verb};

/// The keyword that a line begins with, and the bytes behind it.
pub type Begun<'a> = (Keyword, &'a [u8]);

/// The bytes after the word `lock` of a line that begins with it.
#[inline(always)]
pub fn behind_lock(bytes: &[u8]) -> Option<&[u8]>
    ensures { IfSome result (λ rest. Begins (Some (Plain Note, rest)) (line_of bytes.now)) }
{
    if !is_lock(bytes) {
        return None;
    }
    Some(&bytes[4..])
}

/// The bytes after the word `unlock` of a line that begins with it.
#[inline(always)]
pub fn behind_unlock(bytes: &[u8]) -> Option<&[u8]>
    ensures { IfSome result (λ rest. Begins (Some (Unlock, rest)) (line_of bytes.now)) }
{
    if !is_unlock(bytes) {
        return None;
    }
    Some(&bytes[6..])
}

/// The bytes after the word `check` of a line that begins with it.
#[inline(always)]
pub fn behind_check(bytes: &[u8]) -> Option<&[u8]>
    ensures { IfSome result (λ rest. Begins (Some (Check, rest)) (line_of bytes.now)) }
{
    if !is_check(bytes) {
        return None;
    }
    Some(&bytes[5..])
}

/// The bytes after the word `take` of a line that begins with it.
#[inline(always)]
pub fn behind_take(bytes: &[u8]) -> Option<&[u8]>
    ensures { IfSome result (λ rest. Begins (Some (Take, rest)) (line_of bytes.now)) }
{
    if !is_take(bytes) {
        return None;
    }
    Some(&bytes[4..])
}

/// The bytes after the word `free` of a line that begins with it.
#[inline(always)]
pub fn behind_free(bytes: &[u8]) -> Option<&[u8]>
    ensures { IfSome result (λ rest. Begins (Some (Free, rest)) (line_of bytes.now)) }
{
    if !is_free(bytes) {
        return None;
    }
    Some(&bytes[4..])
}

#[inline(always)]
fn is_lock(bytes: &[u8]) -> bool
    ensures { result ≡ true → bytes.now ≡ codes "lock " ++ drop 5 bytes.now }
{
    matches!(bytes, [b'l', b'o', b'c', b'k', b' ', ..])
}

#[inline(always)]
fn is_unlock(bytes: &[u8]) -> bool
    ensures { result ≡ true → bytes.now ≡ codes "unlock " ++ drop 7 bytes.now }
{
    matches!(bytes, [b'u', b'n', b'l', b'o', b'c', b'k', b' ', ..])
}

#[inline(always)]
fn is_check(bytes: &[u8]) -> bool
    ensures { result ≡ true → bytes.now ≡ codes "check " ++ drop 6 bytes.now }
{
    matches!(bytes, [b'c', b'h', b'e', b'c', b'k', b' ', ..])
}

#[inline(always)]
fn is_take(bytes: &[u8]) -> bool
    ensures { result ≡ true → bytes.now ≡ codes "take " ++ drop 5 bytes.now }
{
    matches!(bytes, [b't', b'a', b'k', b'e', b' ', ..])
}

#[inline(always)]
fn is_free(bytes: &[u8]) -> bool
    ensures { result ≡ true → bytes.now ≡ codes "free " ++ drop 5 bytes.now }
{
    matches!(bytes, [b'f', b'r', b'e', b'e', b' ', ..])
}

/// Reads the first word of a line: `None` where it is no keyword.
#[tactic(auto, unfolding(wit_model::specs::Trace::Reading::line_of))]
pub fn begin_line(bytes: &[u8]) -> Option<Begun<'_>>
    ensures { Begins result (line_of bytes.now) }
{
    let (word, rest) = words::split_before(b' ', bytes);
    match keyword_of(word) {
        Some(keyword) => Some((keyword, rest)),
        None => None,
    }
}

/// The line that begins so, where it is one of the rarer ones on a lock, without a copy. `None` says
/// nothing.
#[inline(always)]
pub fn lock_line(begun: Option<Begun<'_>>) -> Option<LockLine<&str>>
    ensures { (read : Option Line) → Begins begun.entry read → GivesIfFound as_line result read }
{
    let (keyword, rest) = begun?;
    match keyword {
        Keyword::Plain(verb) => plain(verb, rest).ok(),
        Keyword::Try => try_lock(rest).ok(),
        Keyword::Take => step(RawStep::Take, rest).ok(),
        Keyword::Free => step(RawStep::Free, rest).ok(),
        Keyword::TryTake => try_take(rest).ok(),
        Keyword::RawUp => step(RawStep::Up, rest).ok(),
        Keyword::RawDown => step(RawStep::Down, rest).ok(),
        _ => None,
    }
}

/// The line that begins so.
///
/// # Errors
/// `Bad(Cause::Syntax)` where there is none; `Memory`.
pub fn finish_line(alloc: Global, begun: Option<Begun<'_>>) -> Result<Line, LineError>
    ensures { (read : Option Line) → Begins begun.entry read → Gives (λ l. l) result read }
{
    match begun {
        Some((keyword, rest)) => fields(alloc, keyword, rest),
        None => Err(LineError::SYNTAX),
    }
}
