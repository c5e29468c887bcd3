//! Reading a line.

ghost use Rattle.std.specs.Prelude.{◌≡◌, ◌≤◌, ◌<◌, ◌↔◌, length, IfOk, IfErr, Err, Some};
ghost use Rattle.wit_model.specs.declared.lines.Line.{Line};
ghost use Rattle.wit_model.specs.declared.lines.Cause.TheVariants.{Long};
ghost use Rattle.wit_model.specs.Trace.Spelling.{Spells};
ghost use Rattle.wit_model.specs.Trace.Reading.{header_of, profile_of, order_of, bless_of, init_of};
ghost use Rattle.wit_model.specs.Trace.Reading.{fields_of, line_of};
ghost use Rattle.wit_fields.specs.declared.errors.LineError.TheVariants.{Bad};
ghost use Rattle.wit_fields.specs.Fields.{Gives};
ghost use Rattle.wit_grammar.specs.Lines.{IsWhy};

use crate::beginnings::{begin_line, finish_line};
use crate::lock_lines::{check, owned, plain, step, try_lock, try_take, unlock};
use crate::plain_lines::{assert_lock, define, warn, watch};
use std::alloc::Global;
use wit_fields::{LineError, letters, names, numbers, words};
use wit_model::{Cause, Keyword, Line, LockFlags, NewLock, RawStep};

/// The greatest number of bytes in a line; its line feed isn't among them.
pub const LONGEST: usize = 4096;

/// The line that the bytes spell; the line feed that ends a line isn't among them.
///
/// # Errors
/// `Bad(Cause::Long)` exactly where there are more than 4,096 bytes. `Bad(Cause::Syntax)` where
/// there are at most so many and they spell no line. No other cause. `Memory` where a growth was
/// refused.
pub fn parse_line(alloc: Global, bytes: &[u8]) -> Result<Line, LineError>
    ensures found { IfOk result (λ line. Spells bytes.now line × (length bytes.now ≤ LONGEST)) }
    ensures only { (line : Line) → Spells bytes.now line → length bytes.now ≤ LONGEST
        → Gives (λ l. l) result (Some line) }
    ensures long { (result ≡ Err (Bad Long)) ↔ (LONGEST < length bytes.now) }
    ensures why { IfErr result (IsWhy bytes.now) }
    ensures read { length bytes.now ≤ LONGEST → Gives (λ l. l) result (line_of bytes.now) }
{
    if bytes.len() > LONGEST {
        return Err(LineError::Bad(Cause::Long));
    }
    finish_line(alloc, begin_line(bytes))
}

/// The line with this keyword, and what stands behind it.
///
/// # Errors
/// `Bad(Cause::Syntax)` where there is none; `Memory`.
pub fn fields(alloc: Global, keyword: Keyword, bytes: &[u8]) -> Result<Line, LineError>
    ensures { Gives (λ l. l) result (fields_of keyword bytes.now) }
{
    match keyword {
        Keyword::Header => header(bytes),
        Keyword::Profile => profile(bytes),
        Keyword::Order => order(alloc, bytes),
        Keyword::Bless => bless(alloc, bytes),
        Keyword::Init => init(alloc, bytes),
        Keyword::Check => Ok(owned(alloc, check(bytes)?)?),
        Keyword::Try => Ok(owned(alloc, try_lock(bytes)?)?),
        Keyword::Unlock => Ok(owned(alloc, unlock(bytes)?)?),
        Keyword::Plain(verb) => Ok(owned(alloc, plain(verb, bytes)?)?),
        Keyword::Take => Ok(owned(alloc, step(RawStep::Take, bytes)?)?),
        Keyword::TryTake => Ok(owned(alloc, try_take(bytes)?)?),
        Keyword::Free => Ok(owned(alloc, step(RawStep::Free, bytes)?)?),
        Keyword::RawUp => Ok(owned(alloc, step(RawStep::Up, bytes)?)?),
        Keyword::RawDown => Ok(owned(alloc, step(RawStep::Down, bytes)?)?),
        Keyword::Assert => assert_lock(bytes),
        Keyword::Warn => warn(bytes),
        Keyword::Define => define(bytes),
        Keyword::Watch => watch(bytes),
    }
}

#[tactic(auto, unfolding(wit_model::specs::Trace::Reading::header_of))]
fn header(bytes: &[u8]) -> Result<Line, LineError>
    ensures { Gives (λ l. l) result (header_of bytes.now) }
{
    let (version, rest) = words::version(bytes)?;
    let (seats, rest) = numbers::count(b"seats", rest)?;
    let (types, rest) = numbers::count(b"types", rest)?;
    let (locks, rest) = numbers::count(b"locks", rest)?;
    let (chunks, rest) = numbers::count(b"chunks", rest)?;
    if !rest.is_empty() {
        return Err(LineError::SYNTAX);
    }
    Ok(Line::Header {
        version,
        seats,
        types,
        locks,
        chunks,
    })
}

#[tactic(auto, unfolding(wit_model::specs::Trace::Reading::profile_of))]
fn profile(bytes: &[u8]) -> Result<Line, LineError>
    ensures { Gives (λ l. l) result (profile_of bytes.now) }
{
    let rest = words::fixed(b"all", bytes)?;
    if !rest.is_empty() {
        return Err(LineError::SYNTAX);
    }
    Ok(Line::Profile)
}

#[tactic(auto, unfolding(wit_model::specs::Trace::Reading::order_of))]
fn order(alloc: Global, bytes: &[u8]) -> Result<Line, LineError>
    ensures { Gives (λ l. l) result (order_of bytes.now) }
{
    let list = names::list(alloc, bytes)?;
    Ok(Line::Order { list })
}

#[tactic(auto, unfolding(wit_model::specs::Trace::Reading::bless_of))]
fn bless(alloc: Global, bytes: &[u8]) -> Result<Line, LineError>
    ensures { Gives (λ l. l) result (bless_of bytes.now) }
{
    let (first, rest) = names::name(alloc, bytes)?;
    let (second, rest) = names::name(alloc, rest)?;
    if !rest.is_empty() {
        return Err(LineError::SYNTAX);
    }
    Ok(Line::Bless { first, second })
}

#[tactic(auto, unfolding(wit_model::specs::Trace::Reading::init_of))]
fn init(alloc: Global, bytes: &[u8]) -> Result<Line, LineError>
    ensures { Gives (λ l. l) result (init_of bytes.now) }
{
    let (seat, rest) = numbers::seat(bytes)?;
    let (class, rest) = words::class(rest)?;
    let (flags, rest) = words::flags(letters::LOCK, rest)?;
    let (name, rest) = names::name(alloc, rest)?;
    let (type_name, rest) = names::name_if_any(alloc, rest)?;
    if !rest.is_empty() {
        return Err(LineError::SYNTAX);
    }
    let flags = LockFlags(flags);
    let lock = NewLock {
        class,
        flags,
        name,
        type_name,
    };
    Ok(Line::Init { seat, lock })
}
