//! Whether a line can be printed.

ghost use Rattle.std.specs.Prelude.{◌≡◌, ◌≤◌, ◌<◌, ◌^◌, List, ℕ, ◌↔◌, length, IsTrue, IfSome};
ghost use Rattle.std.specs.List.{list_all};
ghost use Rattle.wit_model.specs.Rules.Names.{is_name, is_file_name};
ghost use Rattle.wit_model.specs.Trace.Spelling.{spaced, list_fields, spelling, IsSpellableLock};
ghost use Rattle.wit_model.specs.Trace.Spelling.{IsSpellableList, IsNamed, IsSpellableOnLock};
ghost use Rattle.wit_model.specs.Trace.Spelling.{IsSpellable};
ghost use Rattle.wit_model.specs.declared.locks.Class.{Class};
ghost use Rattle.wit_grammar.specs.Lines.{IsPrelude, IsSpelled};

use crate::parse::LONGEST;
use crate::put::class_text;
use wit_model::{Class, FileName, Line, LockLine, LockNo, Name, NewLock, SeatNo};

/// Whether the line has a spelling of at most 4,096 bytes.
pub fn spelled(line: &Line) -> bool
    ensures { IsTrue result ↔ IsSpelled line.now }
{
    is_spellable(line) && is_short(line)
}

/// Whether a line that has a spelling has a short one.
fn is_short(line: &Line) -> bool
    requires { IsSpellable line.now }
    ensures { IsTrue result ↔ (length (spelling line.now) ≤ LONGEST) }
{
    match line {
        Line::Order { list } => are_within(list.types(), LONGEST - 5),
        // All others have at most ten words, each of at most 300 bytes.
        _ => true,
    }
}

/// Whether the types take at most so many bytes.
fn are_within(types: &[(Class, Name)], most: usize) -> bool
    ensures { IsTrue result ↔ (length (spaced (list_fields types.now)) ≤ most) }
{
    match types {
        [] => true,
        [(class, name), others @ ..] => {
            // Two spaces and two quotation marks.
            let len = class_text(*class).len() + name.as_str().len() + 4;
            len <= most && are_within(others, most - len)
        }
    }
}

fn is_spellable(line: &Line) -> bool
    ensures { IsTrue result ↔ IsSpellable line.now }
{
    match line {
        Line::Header { .. } | Line::Profile | Line::Order { .. } | Line::Bless { .. } => {
            is_spellable_prelude(line)
        }
        Line::Init { seat, lock } => is_seat(*seat) && is_spellable_lock(lock),
        Line::OnLock(line) => is_spellable_on_lock(line),
        Line::Assert {
            seat,
            lock,
            asserted,
        } => are_seat_and_lock(*seat, *lock) && asserted.0 < 64,
        Line::Warn { seat, lock, flags } => is_seat(*seat) && is_named_if_any(*lock) && flags.0 < 4,
        Line::Define {
            seat,
            first,
            second,
        } => are_seat_and_lock(*seat, *first) && are_seat_and_lock(*seat, *second),
        Line::Watch { seat, .. } => is_seat(*seat),
    }
}

fn is_spellable_on_lock(line: &LockLine<FileName>) -> bool
    ensures { IsTrue result ↔ IsSpellableOnLock line.now }
{
    match line {
        LockLine::Check {
            seat,
            lock,
            ops,
            file,
            line,
            ..
        } => are_seat_and_lock(*seat, *lock) && ops.0 < 8 && is_spellable_site(file, *line),
        LockLine::Try {
            seat,
            lock,
            file,
            line,
            ..
        } => are_seat_and_lock(*seat, *lock) && is_spellable_site(file, *line),
        LockLine::Unlock { seat, lock, .. } => are_seat_and_lock(*seat, *lock),
        LockLine::Plain { seat, lock, .. } => are_seat_and_lock(*seat, *lock),
        LockLine::Step { seat, lock, .. } => are_seat_and_lock(*seat, *lock),
    }
}

/// The lines before the calls.
fn is_spellable_prelude(line: &Line) -> bool
    requires { IsPrelude line.now }
    ensures { IsTrue result ↔ IsSpellable line.now }
{
    match line {
        Line::Header {
            seats,
            types,
            locks,
            chunks,
            ..
        } => {
            // A number's type keeps it in its range, and a read shows that.
            let _counts = [*seats, *types, *locks, *chunks];
            true
        }
        Line::Profile => true,
        Line::Order { list } => is_spellable_list(list.types()),
        Line::Bless { first, second } => {
            Name::accepts(first.as_str()) && Name::accepts(second.as_str())
        }
        _ => unreachable!(),
    }
}

/// Any: the numbers' types keep them in their ranges.
fn is_seat(_seat: SeatNo) -> bool
    ensures { IsTrue result ↔ (_seat.0 < 2 ^ 16) }
{
    true
}

/// Any, as `is_seat`.
fn are_seat_and_lock(_seat: SeatNo, _lock: LockNo) -> bool
    ensures { IsTrue result ↔ ((_seat.0 < 2 ^ 16) × (_lock.0 < 2 ^ 32)) }
{
    true
}

/// 0 names no lock.
fn is_named_if_any(lock: Option<LockNo>) -> bool
    ensures { IsTrue result ↔ IfSome lock IsNamed }
{
    match lock {
        None => true,
        Some(lock) => lock.0 > 0,
    }
}

fn is_spellable_site(file: &FileName, _line: u32) -> bool
    ensures { IsTrue result ↔ (IsTrue (is_file_name file.now) × (_line < 2 ^ 32)) }
{
    FileName::accepts(file.as_str())
}

fn is_spellable_list(types: &[(Class, Name)]) -> bool
    ensures { IsTrue result ↔ IsSpellableList types.now }
{
    !types.is_empty() && are_named(types)
}

fn are_named(types: &[(Class, Name)]) -> bool
    ensures { result ≡ list_all (λ (each : Class × List ℕ). is_name each.1) types.now }
{
    types.iter().all(|(_, name)| Name::accepts(name.as_str()))
}

fn is_spellable_lock(lock: &NewLock) -> bool
    ensures { IsTrue result ↔ IsSpellableLock lock.now }
{
    lock.flags.0 < 4 && Name::accepts(lock.name.as_str()) && is_name_if_any(&lock.type_name)
}

fn is_name_if_any(name: &Option<Name>) -> bool
    ensures { IsTrue result ↔ IfSome name.now (λ n. IsTrue (is_name n)) }
{
    match name {
        None => true,
        Some(name) => Name::accepts(name.as_str()),
    }
}
