//! The words of a line: each reader gives a value and the bytes after it, or `LineError::SYNTAX`
//! where the bytes begin with none.

ghost use Rattle.std.specs.Prelude.{◌≡◌, ◌≤◌, ◌<◌, ◌^◌, ◌++◌, codes, drop, length, true, IfSome};
ghost use Rattle.wit_model.specs.Trace.Reading.{after, byte_place, until, version_named};
ghost use Rattle.wit_model.specs.Trace.Reading.{class_named, mode_named, level_named, bits_of};
ghost use Rattle.wit_model.specs.Trace.Reading.{flags_of, leading_word, field_at, fixed_at};
ghost use Rattle.wit_model.specs.Trace.Spelling.{op_letters};
ghost use Rattle.wit_fields.specs.Fields.{Gives};

use crate::errors::LineError;
use crate::letters;
use memchr::memchr;
use wit_model::{Class, Mode, Version, Watch};

/// The bytes after the one that must stand first.
#[inline(always)]
pub fn skip(byte: u8, bytes: &[u8]) -> Result<&[u8], LineError>
    ensures { Gives (λ field. field.now) result (after byte bytes.now) }
{
    match bytes.split_first() {
        Some((first, rest)) if *first == byte => Ok(rest),
        _ => Err(LineError::SYNTAX),
    }
}

/// The index of a byte's first place, or the length.
#[inline(always)]
fn index_of(byte: u8, bytes: &[u8]) -> usize
    ensures place { result ≡ byte_place byte bytes.now }
    ensures within { result ≤ length bytes.now }
{
    for (i, b) in bytes.iter().enumerate() {
        if *b == byte {
            return i;
        }
    }
    bytes.len()
}

/// As `index_of`, and faster where the place is far off.
fn far_index_of(byte: u8, bytes: &[u8]) -> usize
    ensures place { result ≡ byte_place byte bytes.now }
    ensures within { result ≤ length bytes.now }
{
    match memchr(byte, bytes) {
        Some(place) => place,
        None => bytes.len(),
    }
}

/// The bytes before a byte's first place, and those from there on.
#[inline(always)]
pub fn split_before(byte: u8, bytes: &[u8]) -> (&[u8], &[u8])
    ensures front { result.0.now ≡ (until byte bytes.now).0 }
    ensures back { result.1.now ≡ (until byte bytes.now).1 }
{
    bytes.split_at(index_of(byte, bytes))
}

/// A word, up to the next space or the end.
#[tactic(auto, unfolding(wit_model::specs::Trace::Reading::leading_word))]
#[inline(always)]
pub fn word(bytes: &[u8]) -> Result<(&[u8], &[u8]), LineError>
    ensures { Gives (λ field. (field.0.now, field.1.now)) result (leading_word bytes.now) }
{
    let rest = skip(b' ', bytes)?;
    Ok(split_before(b' ', rest))
}

/// As `word`, and faster where the word is long.
#[tactic(auto, unfolding(wit_model::specs::Trace::Reading::leading_word))]
#[inline(always)]
pub fn long_word(bytes: &[u8]) -> Result<(&[u8], &[u8]), LineError>
    ensures { Gives (λ field. (field.0.now, field.1.now)) result (leading_word bytes.now) }
{
    let rest = skip(b' ', bytes)?;
    Ok(rest.split_at(far_index_of(b' ', rest)))
}

/// The bytes after a fixed word.
#[tactic(auto, unfolding(wit_model::specs::Trace::Reading::fixed_at))]
pub fn fixed<'a>(text: &[u8], bytes: &'a [u8]) -> Result<&'a [u8], LineError>
    ensures { Gives (λ field. field.now) result (fixed_at text.now bytes.now) }
{
    let (word, rest) = word(bytes)?;
    if word == text {
        Ok(rest)
    } else {
        Err(LineError::SYNTAX)
    }
}

/// A version of the format: `1` or `2`.
#[tactic(auto, unfolding(wit_model::specs::Trace::Reading::version_named))]
pub fn version(bytes: &[u8]) -> Result<(Version, &[u8]), LineError>
    ensures { Gives (λ field. (field.0, field.1.now)) result (field_at version_named bytes.now) }
{
    let (word, rest) = word(bytes)?;
    match word {
        b"1" => Ok((Version::One, rest)),
        b"2" => Ok((Version::Two, rest)),
        _ => Err(LineError::SYNTAX),
    }
}

/// A mode: `s` or `x`. The latter, in which mutexes are always held, is compared at once.
#[inline(always)]
pub fn mode(bytes: &[u8]) -> Result<(Mode, &[u8]), LineError>
    ensures { Gives (λ field. (field.0, field.1.now)) result (field_at mode_named bytes.now) }
{
    if is_last_x(bytes) {
        return Ok((Mode::Exclusive, &bytes[2..]));
    }
    if is_inner_x(bytes) {
        return Ok((Mode::Exclusive, &bytes[2..]));
    }
    any_mode(bytes)
}

#[inline(always)]
fn is_last_x(bytes: &[u8]) -> bool
    ensures { result ≡ true → bytes.now ≡ codes " x" }
{
    matches!(bytes, [b' ', b'x'])
}

#[inline(always)]
fn is_inner_x(bytes: &[u8]) -> bool
    ensures { result ≡ true → bytes.now ≡ codes " x " ++ drop 3 bytes.now }
{
    matches!(bytes, [b' ', b'x', b' ', ..])
}

// A mode, whichever it is and wherever its word ends.
#[tactic(auto, unfolding(wit_model::specs::Trace::Reading::mode_named))]
fn any_mode(bytes: &[u8]) -> Result<(Mode, &[u8]), LineError>
    ensures { Gives (λ field. (field.0, field.1.now)) result (field_at mode_named bytes.now) }
{
    let (word, rest) = word(bytes)?;
    match word {
        b"s" => Ok((Mode::Shared, rest)),
        b"x" => Ok((Mode::Exclusive, rest)),
        _ => Err(LineError::SYNTAX),
    }
}

/// A watch level: `1`, `0` or `-1`.
#[tactic(auto, unfolding(wit_model::specs::Trace::Reading::level_named))]
pub fn level(bytes: &[u8]) -> Result<(Watch, &[u8]), LineError>
    ensures { Gives (λ field. (field.0, field.1.now)) result (field_at level_named bytes.now) }
{
    let (word, rest) = word(bytes)?;
    match word {
        b"1" => Ok((Watch::On, rest)),
        b"0" => Ok((Watch::Quiet, rest)),
        b"-1" => Ok((Watch::Off, rest)),
        _ => Err(LineError::SYNTAX),
    }
}

/// A class: `mtx`, `spin`, `rw` or `sx`.
#[tactic(auto, unfolding(wit_model::specs::Trace::Reading::class_named))]
pub fn class(bytes: &[u8]) -> Result<(Class, &[u8]), LineError>
    ensures { Gives (λ field. (field.0, field.1.now)) result (field_at class_named bytes.now) }
{
    let (word, rest) = word(bytes)?;
    match word {
        b"mtx" => Ok((Class::SleepMutex, rest)),
        b"spin" => Ok((Class::SpinMutex, rest)),
        b"rw" => Ok((Class::Rw, rest)),
        b"sx" => Ok((Class::Sx, rest)),
        _ => Err(LineError::SYNTAX),
    }
}

/// The bits of letters that stand in order, none twice.
fn bits_of(letters: &[u8], word: &[u8]) -> Option<u8>
    requires { length letters.now ≤ 8 }
    ensures value { result ≡ bits_of letters.now word.now }
    ensures small { IfSome result (λ n. n < 2 ^ length letters.now) }
{
    match (letters, word) {
        (_, []) => Some(0),
        ([], _) => None,
        ([letter, letters @ ..], [first, others @ ..]) if first == letter => {
            Some(2 * bits_of(letters, others)? + 1)
        }
        ([_, letters @ ..], _) => Some(2 * bits_of(letters, word)?),
    }
}

/// The flags of a request. The one that most have alone is compared at once.
#[inline(always)]
pub fn request_flags(bytes: &[u8]) -> Result<(u8, &[u8]), LineError>
    ensures { Gives (λ field. (field.0, field.1.now)) result
        (field_at (flags_of op_letters) bytes.now) }
{
    if is_inner_n(bytes) {
        return Ok((1, &bytes[2..]));
    }
    flags(letters::REQUEST, bytes)
}

#[inline(always)]
fn is_inner_n(bytes: &[u8]) -> bool
    ensures { result ≡ true → bytes.now ≡ codes " n " ++ drop 3 bytes.now }
{
    matches!(bytes, [b' ', b'n', b' ', ..])
}

/// Flags: `-` for none, else letters of these in their order, none twice. The first letter is bit
/// 0.
#[tactic(auto, unfolding(wit_model::specs::Trace::Reading::flags_of))]
#[inline(always)]
pub fn flags<'a>(letters: &[u8], bytes: &'a [u8]) -> Result<(u8, &'a [u8]), LineError>
    requires { length letters.now ≤ 8 }
    ensures { Gives (λ field. (field.0, field.1.now)) result
        (field_at (flags_of letters.now) bytes.now) }
{
    let (word, rest) = word(bytes)?;
    match word {
        b"-" => Ok((0, rest)),
        [] => Err(LineError::SYNTAX),
        _ => match bits_of(letters, word) {
            Some(bits) => Ok((bits, rest)),
            None => Err(LineError::SYNTAX),
        },
    }
}
