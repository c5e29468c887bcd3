//! The fields of the lines that are most frequent, without a value for the line. `None` where the
//! bytes aren't those.

ghost use Rattle.std.specs.Prelude.{◌≡◌, true, IfSome};
ghost use Rattle.wit_model.specs.Rules.Names.{is_file_name};
ghost use Rattle.wit_model.specs.declared.lines.Keyword.TheVariants as keyword;
ghost use Rattle.wit_model.specs.declared.lines.Line.TheVariants.{OnLock};
ghost use Rattle.wit_model.specs.declared.lines.LockLine.TheVariants.{Check, Unlock, Plain, Step};
ghost use Rattle.wit_model.specs.declared.lines.Verb.TheVariants.{Note};
ghost use Rattle.wit_model.specs.declared.raw_steps.RawStep.TheVariants.{Take, Free};
ghost use Rattle.wit_model.specs.Trace.Reading.{fields_of};
ghost use Rattle.wit_fields.specs.Fields.{IsKnownAs};
ghost use Rattle.wit_grammar.specs.Lines.{GivesIfFound};

use wit_fields::{names, numbers, words};
use wit_model::{FileNo, LockNo, Mode, OpFlags, SeatNo};

/// What stands behind the word `check`.
#[derive(Clone, Copy, Debug)]
pub struct CheckFields<'a> {
    /// Who asks.
    pub seat: SeatNo,
    /// For which lock.
    pub lock: LockNo,
    /// How it is to be held.
    pub mode: Mode,
    /// What else is said of the request.
    pub ops: OpFlags,
    /// The name of the file where it is asked for.
    pub file: &'a str,
    /// That file's number, where it is the known one.
    pub number: Option<FileNo>,
    /// The line there.
    pub line: u32,
}

/// What stands behind the word `check`. A line that names the known file is read in less time. The
/// known name is a file name.
#[tactic(auto, unfolding(wit_model::specs::Trace::Reading::check_of))]
#[inline(always)]
pub fn check_fields<'a>(known: Option<(FileNo, &str)>, bytes: &'a [u8]) -> Option<CheckFields<'a>>
    requires { IfSome known (λ k. is_file_name k.1.now ≡ true) }
    ensures read { GivesIfFound
        (λ fields. OnLock (Check fields.seat fields.lock fields.mode fields.ops fields.file.now
        fields.line)) result
        (fields_of keyword.Check bytes.now) }
    ensures known { IfSome result (λ fields.
        IfSome fields.number (IsKnownAs known.entry fields.file.now)) }
{
    let (seat, rest) = numbers::seat(bytes).ok()?;
    let (lock, rest) = numbers::lock(rest).ok()?;
    let (mode, rest) = words::mode(rest).ok()?;
    let (ops, rest) = words::request_flags(rest).ok()?;
    let (file, number, line, rest) = names::site(known, rest).ok()?;
    if !rest.is_empty() {
        return None;
    }
    Some(CheckFields {
        seat,
        lock,
        mode,
        ops: OpFlags(ops),
        file,
        number,
        line,
    })
}

/// What stands behind the word `unlock`.
#[tactic(auto, unfolding(wit_model::specs::Trace::Reading::unlock_of))]
#[inline(always)]
pub fn unlock_fields(bytes: &[u8]) -> Option<(SeatNo, LockNo, Mode)>
    ensures { GivesIfFound (λ fields. OnLock (Unlock fields.0 fields.1 fields.2)) result
        (fields_of keyword.Unlock bytes.now) }
{
    let (seat, rest) = numbers::seat(bytes).ok()?;
    let (lock, rest) = numbers::lock(rest).ok()?;
    let (mode, rest) = words::mode(rest).ok()?;
    if !rest.is_empty() {
        return None;
    }
    Some((seat, lock, mode))
}

/// What stands behind the word `lock`.
#[tactic(auto, unfolding(wit_model::specs::Trace::Reading::plain_of))]
#[inline(always)]
pub fn note_fields(bytes: &[u8]) -> Option<(SeatNo, LockNo)>
    ensures { GivesIfFound (λ fields. OnLock (Plain Note fields.0 fields.1)) result
        (fields_of (keyword.Plain Note) bytes.now) }
{
    let (seat, rest) = numbers::seat(bytes).ok()?;
    let (lock, rest) = numbers::lock(rest).ok()?;
    if !rest.is_empty() {
        return None;
    }
    Some((seat, lock))
}

/// What stands behind the word `take`.
#[tactic(auto, unfolding(wit_model::specs::Trace::Reading::step_of))]
#[inline(always)]
pub fn take_fields(bytes: &[u8]) -> Option<(SeatNo, LockNo)>
    ensures { GivesIfFound (λ fields. OnLock (Step fields.0 fields.1 Take)) result
        (fields_of keyword.Take bytes.now) }
{
    let (seat, rest) = numbers::seat(bytes).ok()?;
    let (lock, rest) = numbers::lock(rest).ok()?;
    if !rest.is_empty() {
        return None;
    }
    Some((seat, lock))
}

/// What stands behind the word `free`.
#[tactic(auto, unfolding(wit_model::specs::Trace::Reading::step_of))]
#[inline(always)]
pub fn free_fields(bytes: &[u8]) -> Option<(SeatNo, LockNo)>
    ensures { GivesIfFound (λ fields. OnLock (Step fields.0 fields.1 Free)) result
        (fields_of keyword.Free bytes.now) }
{
    let (seat, rest) = numbers::seat(bytes).ok()?;
    let (lock, rest) = numbers::lock(rest).ok()?;
    if !rest.is_empty() {
        return None;
    }
    Some((seat, lock))
}
