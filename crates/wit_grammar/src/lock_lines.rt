//! Lines on a lock, read where they lie.

ghost use Rattle.std.specs.Prelude.{◌≡◌, IfOk};
ghost use Rattle.wit_model.specs.Trace.Reading.{check_of, try_of, unlock_of, plain_of, step_of};
ghost use Rattle.wit_model.specs.Trace.Reading.{try_take_of};
ghost use Rattle.wit_model.specs.declared.lines.Line.TheVariants.{OnLock};
ghost use Rattle.wit_fields.specs.Fields.{Gives};
ghost use Rattle.wit_grammar.specs.Lines.{as_line};

use std::alloc::{AllocError, Global};
use wit_fields::{LineError, names, numbers, words};
use wit_model::{FileName, Line, LockLine, OpFlags, RawStep, Verb};

/// The line by itself.
///
/// # Errors
/// Want of memory.
pub fn owned(alloc: Global, line: LockLine<&str>) -> Result<Line, AllocError>
    ensures { IfOk result (λ l. l ≡ as_line line.entry) }
{
    let line = match line {
        LockLine::Check {
            seat,
            lock,
            mode,
            ops,
            file,
            line,
        } => LockLine::Check {
            seat,
            lock,
            mode,
            ops,
            file: FileName::new(alloc, file)?,
            line,
        },
        LockLine::Try {
            seat,
            lock,
            mode,
            file,
            line,
        } => LockLine::Try {
            seat,
            lock,
            mode,
            file: FileName::new(alloc, file)?,
            line,
        },
        LockLine::Unlock { seat, lock, mode } => LockLine::Unlock { seat, lock, mode },
        LockLine::Plain { verb, seat, lock } => LockLine::Plain { verb, seat, lock },
        LockLine::Step { seat, lock, step } => LockLine::Step { seat, lock, step },
    };
    Ok(Line::OnLock(line))
}

/// The line with its file as text.
pub fn borrowed(line: &LockLine<FileName>) -> LockLine<&str>
    ensures { as_line result ≡ OnLock line.now }
{
    match line {
        LockLine::Check {
            seat,
            lock,
            mode,
            ops,
            file,
            line,
        } => LockLine::Check {
            seat: *seat,
            lock: *lock,
            mode: *mode,
            ops: *ops,
            file: file.as_str(),
            line: *line,
        },
        LockLine::Try {
            seat,
            lock,
            mode,
            file,
            line,
        } => LockLine::Try {
            seat: *seat,
            lock: *lock,
            mode: *mode,
            file: file.as_str(),
            line: *line,
        },
        LockLine::Unlock { seat, lock, mode } => LockLine::Unlock {
            seat: *seat,
            lock: *lock,
            mode: *mode,
        },
        LockLine::Plain { verb, seat, lock } => LockLine::Plain {
            verb: *verb,
            seat: *seat,
            lock: *lock,
        },
        LockLine::Step { seat, lock, step } => LockLine::Step {
            seat: *seat,
            lock: *lock,
            step: *step,
        },
    }
}

/// What stands behind the word `check`.
///
/// # Errors
/// `LineError::SYNTAX` where that isn't its fields.
#[tactic(auto, unfolding(wit_model::specs::Trace::Reading::check_of))]
pub fn check(bytes: &[u8]) -> Result<LockLine<&str>, LineError>
    ensures { Gives as_line result (check_of bytes.now) }
{
    let (seat, rest) = numbers::seat(bytes)?;
    let (lock, rest) = numbers::lock(rest)?;
    let (mode, rest) = words::mode(rest)?;
    let (ops, rest) = words::request_flags(rest)?;
    let (file, _number, line, rest) = names::site(None, rest)?;
    if !rest.is_empty() {
        return Err(LineError::SYNTAX);
    }
    Ok(LockLine::Check {
        seat,
        lock,
        mode,
        ops: OpFlags(ops),
        file,
        line,
    })
}

/// What stands behind the word `try`.
///
/// # Errors
/// `LineError::SYNTAX` where that isn't its fields.
#[tactic(auto, unfolding(wit_model::specs::Trace::Reading::try_of))]
#[inline(always)]
pub fn try_lock(bytes: &[u8]) -> Result<LockLine<&str>, LineError>
    ensures { Gives as_line result (try_of bytes.now) }
{
    let (seat, rest) = numbers::seat(bytes)?;
    let (lock, rest) = numbers::lock(rest)?;
    let (mode, rest) = words::mode(rest)?;
    let (file, _number, line, rest) = names::site(None, rest)?;
    if !rest.is_empty() {
        return Err(LineError::SYNTAX);
    }
    Ok(LockLine::Try {
        seat,
        lock,
        mode,
        file,
        line,
    })
}

/// What stands behind the keyword of a verb.
///
/// # Errors
/// `LineError::SYNTAX` where that isn't its fields.
#[tactic(auto, unfolding(wit_model::specs::Trace::Reading::plain_of))]
#[inline(always)]
pub fn plain(verb: Verb, bytes: &[u8]) -> Result<LockLine<&str>, LineError>
    ensures { Gives as_line result (plain_of verb bytes.now) }
{
    let (seat, rest) = numbers::seat(bytes)?;
    let (lock, rest) = numbers::lock(rest)?;
    if !rest.is_empty() {
        return Err(LineError::SYNTAX);
    }
    Ok(LockLine::Plain { verb, seat, lock })
}

/// What stands behind the keyword of a step of a lock that names nothing but a seat and the lock.
///
/// # Errors
/// `LineError::SYNTAX` where that isn't its fields.
#[tactic(auto, unfolding(wit_model::specs::Trace::Reading::step_of))]
#[inline(always)]
pub fn step(step: RawStep, bytes: &[u8]) -> Result<LockLine<&str>, LineError>
    ensures { Gives as_line result (step_of step bytes.now) }
{
    let (seat, rest) = numbers::seat(bytes)?;
    let (lock, rest) = numbers::lock(rest)?;
    if !rest.is_empty() {
        return Err(LineError::SYNTAX);
    }
    Ok(LockLine::Step { seat, lock, step })
}

/// What stands behind the word `trytake`.
///
/// # Errors
/// `LineError::SYNTAX` where that isn't its fields.
#[tactic(auto, unfolding(wit_model::specs::Trace::Reading::try_take_of))]
#[inline(always)]
pub fn try_take(bytes: &[u8]) -> Result<LockLine<&str>, LineError>
    ensures { Gives as_line result (try_take_of bytes.now) }
{
    let (seat, rest) = numbers::seat(bytes)?;
    let (lock, rest) = numbers::lock(rest)?;
    let (mode, rest) = words::mode(rest)?;
    if !rest.is_empty() {
        return Err(LineError::SYNTAX);
    }
    let step = RawStep::TryTake(mode);
    Ok(LockLine::Step { seat, lock, step })
}

/// What stands behind the word `unlock`.
///
/// # Errors
/// `LineError::SYNTAX` where that isn't its fields.
#[tactic(auto, unfolding(wit_model::specs::Trace::Reading::unlock_of))]
#[inline(always)]
pub fn unlock(bytes: &[u8]) -> Result<LockLine<&str>, LineError>
    ensures { Gives as_line result (unlock_of bytes.now) }
{
    let (seat, rest) = numbers::seat(bytes)?;
    let (lock, rest) = numbers::lock(rest)?;
    let (mode, rest) = words::mode(rest)?;
    if !rest.is_empty() {
        return Err(LineError::SYNTAX);
    }
    Ok(LockLine::Unlock { seat, lock, mode })
}
