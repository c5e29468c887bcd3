//! Assertions, warnings, defined orders and watch levels: lines without text. Each reader takes
//! what stands behind the keyword, and answers `LineError::SYNTAX` where that isn't its fields.

ghost use Rattle.std.specs.Prelude.{◌≡◌};
ghost use Rattle.wit_model.specs.Trace.Reading.{lock_if_any, assert_of, warn_of, define_of};
ghost use Rattle.wit_model.specs.Trace.Reading.{watch_line};
ghost use Rattle.wit_fields.specs.Fields.{Gives};

use wit_fields::{LineError, letters, numbers, words};
use wit_model::{Line, LockAssert, LockNo, WarnFlags};

/// What stands behind `assert`.
#[tactic(auto, unfolding(wit_model::specs::Trace::Reading::assert_of))]
pub fn assert_lock(bytes: &[u8]) -> Result<Line, LineError>
    ensures { Gives (λ l. l) result (assert_of bytes.now) }
{
    let (seat, rest) = numbers::seat(bytes)?;
    let (lock, rest) = numbers::lock(rest)?;
    let (flags, rest) = words::flags(letters::ASSERTION, rest)?;
    if !rest.is_empty() {
        return Err(LineError::SYNTAX);
    }
    Ok(Line::Assert {
        seat,
        lock,
        asserted: LockAssert(flags),
    })
}

/// The lock with this number; 0 names none.
fn lock_if_any(lock: LockNo) -> Option<LockNo>
    ensures { result ≡ lock_if_any lock.0 }
{
    if lock.0 == 0 { None } else { Some(lock) }
}

/// What stands behind `warn`.
#[tactic(auto, unfolding(wit_model::specs::Trace::Reading::warn_of))]
pub fn warn(bytes: &[u8]) -> Result<Line, LineError>
    ensures { Gives (λ l. l) result (warn_of bytes.now) }
{
    let (seat, rest) = numbers::seat(bytes)?;
    let (lock, rest) = numbers::lock(rest)?;
    let (flags, rest) = words::flags(letters::WARNING, rest)?;
    if !rest.is_empty() {
        return Err(LineError::SYNTAX);
    }
    Ok(Line::Warn {
        seat,
        lock: lock_if_any(lock),
        flags: WarnFlags(flags),
    })
}

/// What stands behind `define`.
#[tactic(auto, unfolding(wit_model::specs::Trace::Reading::define_of))]
pub fn define(bytes: &[u8]) -> Result<Line, LineError>
    ensures { Gives (λ l. l) result (define_of bytes.now) }
{
    let (seat, rest) = numbers::seat(bytes)?;
    let (first, rest) = numbers::lock(rest)?;
    let (second, rest) = numbers::lock(rest)?;
    if !rest.is_empty() {
        return Err(LineError::SYNTAX);
    }
    Ok(Line::Define {
        seat,
        first,
        second,
    })
}

/// What stands behind `watch`.
#[tactic(auto, unfolding(wit_model::specs::Trace::Reading::watch_line))]
pub fn watch(bytes: &[u8]) -> Result<Line, LineError>
    ensures { Gives (λ l. l) result (watch_line bytes.now) }
{
    let (seat, rest) = numbers::seat(bytes)?;
    let (watch, rest) = words::level(rest)?;
    if !rest.is_empty() {
        return Err(LineError::SYNTAX);
    }
    Ok(Line::Watch { seat, watch })
}
