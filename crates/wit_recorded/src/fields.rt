//! The fields of a line: each reader gives a value and the bytes after it, or `LineError::SYNTAX`
//! where the bytes begin with none.

ghost use Rattle.std.specs.Prelude.{◌≡◌, unwrap_or};
ghost use Rattle.wit_fields.specs.Fields.{Gives};
ghost use Rattle.wit_model.specs.Trace.Reading.{field_at, leading_count};
ghost use Rattle.wit_recorded.specs.Reading.{leading_where, manner_named, misuse_named};
ghost use Rattle.wit_recorded.specs.Reading.{recursive_named};

use crate::lines::Misuse;
use wit_fields::LineError;
use wit_fields::numbers::number_of;
use wit_fields::words::word;

/// A number: 0 to 4,294,967,295.
#[tactic(auto, unfolding(wit_model::specs::Trace::Reading::leading_count))]
pub fn count(bytes: &[u8]) -> Result<(u32, &[u8]), LineError>
    ensures { Gives (λ field. (field.0, field.1.now)) result (leading_count bytes.now) }
{
    let (word, rest) = word(bytes)?;
    Ok((number_of(u32::MAX, word)?, rest))
}

/// The numbers of a place and of a stack, where one follows.
pub fn at(bytes: &[u8]) -> Result<(u32, Option<u32>, &[u8]), LineError>
    ensures { Gives (λ field. ((field.0, field.1), field.2.now)) result (leading_where bytes.now) }
{
    let (place, rest) = count(bytes)?;
    if rest.is_empty() {
        return Ok((place, None, rest));
    }
    let (stack, rest) = count(rest)?;
    Ok((place, Some(stack), rest))
}

/// In which way a lock is asked for: `n` or `k`.
#[tactic(auto, unfolding(crate::specs::Reading::manner_named))]
pub fn manner(bytes: &[u8]) -> Result<(bool, &[u8]), LineError>
    ensures { Gives (λ field. (field.0, field.1.now)) result (field_at manner_named bytes.now) }
{
    let (word, rest) = word(bytes)?;
    match word {
        b"n" => Ok((true, rest)),
        b"k" => Ok((false, rest)),
        _ => Err(LineError::SYNTAX),
    }
}

/// Whether a lock is recursive: `r` says so.
#[tactic(auto, unfolding(crate::specs::Reading::recursive_named))]
pub fn recursive(bytes: &[u8]) -> Result<(bool, &[u8]), LineError>
    ensures { Gives (λ field. (field.0, field.1.now)) result (field_at recursive_named bytes.now) }
{
    let (word, rest) = word(bytes)?;
    match word {
        b"-" => Ok((false, rest)),
        b"s" => Ok((false, rest)),
        b"r" => Ok((true, rest)),
        b"rs" => Ok((true, rest)),
        _ => Err(LineError::SYNTAX),
    }
}

/// Which error in the use of a lock a line names.
pub fn misuse(bytes: &[u8]) -> Result<(Misuse, &[u8]), LineError>
    ensures { Gives (λ field. (field.0, field.1.now)) result (field_at misuse_named bytes.now) }
{
    let (word, rest) = word(bytes)?;
    Ok((misuse_named(word)?, rest))
}

#[tactic(auto, unfolding(crate::specs::Reading::misuse_named))]
fn misuse_named(word: &[u8]) -> Result<Misuse, LineError>
    ensures { Gives (λ what. what) result (misuse_named word.now) }
{
    if word == b"ended".as_slice() {
        Ok(Misuse::Ended)
    } else if word == b"destroyed".as_slice() {
        Ok(Misuse::Destroyed)
    } else if word == b"freed".as_slice() {
        Ok(Misuse::Freed)
    } else if word == b"remade".as_slice() {
        Ok(Misuse::Remade)
    } else if word == b"waited".as_slice() {
        Ok(Misuse::Waited)
    } else if word == b"reread".as_slice() {
        Ok(Misuse::Reread)
    } else {
        Err(LineError::SYNTAX)
    }
}
