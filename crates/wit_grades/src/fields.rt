//! The fields of a line: each reader gives a value and the bytes after it, or `LineError::SYNTAX`
//! where the bytes begin with none.

ghost use Rattle.std.specs.Prelude.{◌≡◌, ◌^◌};
ghost use Rattle.wit_fields.specs.Fields.{Gives};
ghost use Rattle.wit_model.specs.Trace.Reading.{field_at, leading_count};
ghost use Rattle.wit_grades.specs.Reading.{held_mode_named, leading_had, leading_held};
ghost use Rattle.wit_grades.specs.Reading.{manner_named, thread_named};

use wit_alarms::{Had, Manner, Single, ThreadNo};
use wit_fields::LineError;
use wit_fields::numbers::number_of;
use wit_fields::words::{mode, word};
use wit_model::Mode;

/// A number: 0 to 4,294,967,295.
#[tactic(auto, unfolding(wit_model::specs::Trace::Reading::leading_count))]
pub fn number(bytes: &[u8]) -> Result<(u32, &[u8]), LineError>
    ensures { Gives (λ field. (field.0, field.1.now)) result (leading_count bytes.now) }
{
    let (word, rest) = word(bytes)?;
    Ok((number_of(u32::MAX, word)?, rest))
}

/// A lock and a mode.
#[tactic(auto, unfolding(crate::specs::Reading::leading_had))]
pub fn had(bytes: &[u8]) -> Result<(Had, &[u8]), LineError>
    ensures { Gives (λ field. (field.0, field.1.now)) result (leading_had bytes.now) }
{
    let (lock, rest) = number(bytes)?;
    let (mode, rest) = mode(rest)?;
    let lock = Single(lock);
    Ok((Had { lock, mode }, rest))
}

/// The held lock, and whether it was acquired while the lock was held that is asked for.
#[tactic(auto, unfolding(crate::specs::Reading::leading_held))]
pub fn held(bytes: &[u8]) -> Result<(Had, bool, &[u8]), LineError>
    ensures { Gives (λ field. ((field.0, field.1), field.2.now)) result (leading_held bytes.now) }
{
    let (lock, rest) = number(bytes)?;
    let (mode, under, rest) = held_mode(rest)?;
    let lock = Single(lock);
    Ok((Had { lock, mode }, under, rest))
}

// The mode of the held lock: `x` or `s`, and `u` after it where that was acquired so.
#[tactic(auto, unfolding(crate::specs::Reading::held_mode_named))]
fn held_mode(bytes: &[u8]) -> Result<(Mode, bool, &[u8]), LineError>
    ensures { Gives (λ field. ((field.0, field.1), field.2.now)) result
        (field_at held_mode_named bytes.now) }
{
    let (word, rest) = word(bytes)?;
    match word {
        b"s" => Ok((Mode::Shared, false, rest)),
        b"x" => Ok((Mode::Exclusive, false, rest)),
        b"su" => Ok((Mode::Shared, true, rest)),
        b"xu" => Ok((Mode::Exclusive, true, rest)),
        _ => Err(LineError::SYNTAX),
    }
}

/// In which way a lock is asked for: `n`, `l` or `w`.
#[tactic(auto, unfolding(crate::specs::Reading::manner_named))]
pub fn manner(bytes: &[u8]) -> Result<(Manner, &[u8]), LineError>
    ensures { Gives (λ field. (field.0, field.1.now)) result (field_at manner_named bytes.now) }
{
    let (word, rest) = word(bytes)?;
    match word {
        b"n" => Ok((Manner::Plain, rest)),
        b"l" => Ok((Manner::Timed, rest)),
        b"w" => Ok((Manner::EndsWait, rest)),
        _ => Err(LineError::SYNTAX),
    }
}

/// A thread, or a dash where it isn't known.
pub fn thread(bytes: &[u8]) -> Result<(Option<ThreadNo>, &[u8]), LineError>
    ensures { Gives (λ field. (field.0, field.1.now)) result (field_at thread_named bytes.now) }
{
    let (word, rest) = word(bytes)?;
    Ok((thread_of(word)?, rest))
}

#[tactic(auto, unfolding(crate::specs::Reading::thread_named))]
fn thread_of(word: &[u8]) -> Result<Option<ThreadNo>, LineError>
    ensures { Gives (λ thread. thread) result (thread_named word.now) }
{
    if word == b"-".as_slice() {
        return Ok(None);
    }
    Ok(Some(ThreadNo(number_of(u32::MAX, word)?)))
}
