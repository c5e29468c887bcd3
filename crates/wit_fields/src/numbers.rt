//! The numbers of a line: each reader gives a number and the bytes after it, or `LineError::SYNTAX`
//! where the bytes begin with none.

ghost use Rattle.std.specs.Prelude.{◌+◌, ◌*◌, ◌≡◌, ◌≤◌, ◌<◌, ◌==◌, ◌&&◌, ◌||◌, ◌∷◌, [], not, drop};
ghost use Rattle.std.specs.Prelude.{length, true, None, IfOk, IfSome, slice_index};
ghost use Rattle.std.specs.Char.{is_ascii_digit, digit_value};
ghost use Rattle.wit_model.specs.Trace.Reading.{number_of, field_at, behind, leading_count};
ghost use Rattle.wit_model.specs.Trace.Reading.{leading_seat, leading_lock};
ghost use Rattle.wit_fields.specs.Fields.{Gives, leading_number};

use crate::errors::LineError;
use crate::words::{fixed, skip};
use wit_model::{LockNo, SeatNo};

/// Whether there are bytes, and the first isn't a leading zero.
#[inline(always)]
fn begins_numeral(word: &[u8]) -> bool
    ensures { result ≡ (not (length word.now == 0)
        && (not (slice_index word.now 0 == 48) || (length word.now == 1))) }
{
    !word.is_empty() && (word[0] != b'0' || word.len() == 1)
}

/// The number with one more digit, where the byte is one and the number stays within the bound.
#[inline(always)]
fn with_digit(most: u32, number: u32, byte: u8) -> Option<u32>
    ensures some { IfSome result (λ n. (is_ascii_digit byte ≡ true)
        × (n ≡ number * 10 + digit_value byte) × (n ≤ most)) }
    ensures none { result ≡ None → is_ascii_digit byte ≡ true
        → most < number * 10 + digit_value byte }
{
    if !byte.is_ascii_digit() {
        return None;
    }
    let more = u64::from(number) * 10 + u64::from(byte - b'0');
    if more > u64::from(most) {
        return None;
    }
    Some(more as u32)
}

/// The number that a word spells, without leading zeros and up to this bound; `LineError::SYNTAX`
/// where it spells none.
#[inline(always)]
pub fn number_of(most: u32, word: &[u8]) -> Result<u32, LineError>
    ensures value { Gives (λ n. n) result (number_of (most + 1) word.now) }
    ensures below { IfOk result (λ n. n ≤ most) }
{
    if !begins_numeral(word) {
        return Err(LineError::SYNTAX);
    }
    let mut number = 0;
    for byte in word {
        let Some(more) = with_digit(most, number, *byte) else {
            return Err(LineError::SYNTAX);
        };
        number = more;
    }
    Ok(number)
}

/// The number that the bytes up to the next space or the end spell, without leading zeros, and the
/// bytes from there on. One look.
#[inline(always)]
fn leading_number(most: u32, bytes: &[u8]) -> Result<(u32, &[u8]), LineError>
    ensures value { Gives (λ field. (field.0, field.1.now)) result
        (leading_number (most + 1) bytes.now) }
    ensures below { IfOk result (λ field. field.0 ≤ most) }
{
    let mut number = 0;
    let mut len = 0;
    while len < bytes.len() && bytes[len] != b' ' {
        let Some(more) = with_digit(most, number, bytes[len]) else {
            return Err(LineError::SYNTAX);
        };
        number = more;
        len += 1;
    }
    let (word, rest) = bytes.split_at(len);
    if !begins_numeral(word) {
        return Err(LineError::SYNTAX);
    }
    Ok((number, rest))
}

// A number behind a space. One of up to three digits is read at once.
#[inline(always)]
fn number(most: u32, bytes: &[u8]) -> Result<(u32, &[u8]), LineError>
    ensures value { Gives (λ field. (field.0, field.1.now)) result
        (field_at (number_of (most + 1)) bytes.now) }
    ensures below { IfOk result (λ field. field.0 ≤ most) }
{
    if let Some(number) = last_digit(bytes) {
        if number <= most {
            return Ok((number, &bytes[2..]));
        }
    }
    if let Some(number) = inner_digit(bytes) {
        if number <= most {
            return Ok((number, &bytes[2..]));
        }
    }
    if let Some((tens, ones)) = inner_two(bytes) {
        let number = tens * 10 + ones;
        if number <= most {
            return Ok((number, &bytes[3..]));
        }
    }
    if let Some((hundreds, tens, ones)) = inner_three(bytes) {
        let number = (hundreds * 10 + tens) * 10 + ones;
        if number <= most {
            return Ok((number, &bytes[4..]));
        }
    }
    if let Some((tens, ones)) = last_two(bytes) {
        let number = tens * 10 + ones;
        if number <= most {
            return Ok((number, &bytes[3..]));
        }
    }
    if let Some((hundreds, tens, ones)) = last_three(bytes) {
        let number = (hundreds * 10 + tens) * 10 + ones;
        if number <= most {
            return Ok((number, &bytes[4..]));
        }
    }
    any_number(most, bytes)
}

// The number that the last word is, where it has a single digit.
#[inline(always)]
fn last_digit(bytes: &[u8]) -> Option<u32>
    ensures { IfSome result (λ n. (n ≤ 9) × (bytes.now ≡ 32 ∷ (n + 48) ∷ [])) }
{
    match bytes {
        [b' ', digit] if digit.is_ascii_digit() => Some(u32::from(*digit - b'0')),
        _ => None,
    }
}

// The number that a word before others is, where it has a single digit.
#[inline(always)]
fn inner_digit(bytes: &[u8]) -> Option<u32>
    ensures { IfSome result (λ n. (n ≤ 9)
        × (bytes.now ≡ 32 ∷ (n + 48) ∷ 32 ∷ drop 3 bytes.now)) }
{
    match bytes {
        [b' ', digit, b' ', ..] if digit.is_ascii_digit() => Some(u32::from(*digit - b'0')),
        _ => None,
    }
}

// Whether a byte is a digit that a number of several may begin with.
#[inline(always)]
fn is_first_digit(byte: u8) -> bool
    ensures { result ≡ true → (49 ≤ byte) × (byte ≤ 57) }
{
    byte >= b'1' && byte <= b'9'
}

// The two digits of a word before others, the first no zero.
#[inline(always)]
fn inner_two(bytes: &[u8]) -> Option<(u32, u32)>
    ensures { IfSome result (λ d. (1 ≤ d.0) × (d.0 ≤ 9) × (d.1 ≤ 9)
        × (bytes.now ≡ 32 ∷ (d.0 + 48) ∷ (d.1 + 48) ∷ 32 ∷ drop 4 bytes.now)) }
{
    match bytes {
        [b' ', a, b, b' ', ..] if is_first_digit(*a) && b.is_ascii_digit() => {
            Some((u32::from(*a - b'0'), u32::from(*b - b'0')))
        }
        _ => None,
    }
}

// The two digits of the last word, the first no zero.
#[inline(always)]
fn last_two(bytes: &[u8]) -> Option<(u32, u32)>
    ensures { IfSome result (λ d. (1 ≤ d.0) × (d.0 ≤ 9) × (d.1 ≤ 9)
        × (bytes.now ≡ 32 ∷ (d.0 + 48) ∷ (d.1 + 48) ∷ [])) }
{
    match bytes {
        [b' ', a, b] if is_first_digit(*a) && b.is_ascii_digit() => {
            Some((u32::from(*a - b'0'), u32::from(*b - b'0')))
        }
        _ => None,
    }
}

// The three digits of a word before others, the first no zero.
#[inline(always)]
fn inner_three(bytes: &[u8]) -> Option<(u32, u32, u32)>
    ensures { IfSome result (λ d. (1 ≤ d.0) × (d.0 ≤ 9) × (d.1 ≤ 9) × (d.2 ≤ 9)
        × (bytes.now
        ≡ 32 ∷ (d.0 + 48) ∷ (d.1 + 48) ∷ (d.2 + 48) ∷ 32 ∷ drop 5 bytes.now)) }
{
    match bytes {
        [b' ', a, b, c, b' ', ..]
            if is_first_digit(*a) && b.is_ascii_digit() && c.is_ascii_digit() => {
            Some((
                u32::from(*a - b'0'),
                u32::from(*b - b'0'),
                u32::from(*c - b'0'),
            ))
        }
        _ => None,
    }
}

// The three digits of the last word, the first no zero.
#[inline(always)]
fn last_three(bytes: &[u8]) -> Option<(u32, u32, u32)>
    ensures { IfSome result (λ d. (1 ≤ d.0) × (d.0 ≤ 9) × (d.1 ≤ 9) × (d.2 ≤ 9)
        × (bytes.now ≡ 32 ∷ (d.0 + 48) ∷ (d.1 + 48) ∷ (d.2 + 48) ∷ [])) }
{
    match bytes {
        [b' ', a, b, c] if is_first_digit(*a) && b.is_ascii_digit() && c.is_ascii_digit() => {
            Some((
                u32::from(*a - b'0'),
                u32::from(*b - b'0'),
                u32::from(*c - b'0'),
            ))
        }
        _ => None,
    }
}

#[tactic(auto, unfolding(wit_model::specs::Trace::Reading::leading_word))]
fn any_number(most: u32, bytes: &[u8]) -> Result<(u32, &[u8]), LineError>
    ensures value { Gives (λ field. (field.0, field.1.now)) result
        (field_at (number_of (most + 1)) bytes.now) }
    ensures below { IfOk result (λ field. field.0 ≤ most) }
{
    leading_number(most, skip(b' ', bytes)?)
}

/// The number of a seat: 0 to 65,535.
#[tactic(auto, unfolding(wit_model::specs::Trace::Reading::leading_seat))]
#[inline(always)]
pub fn seat(bytes: &[u8]) -> Result<(SeatNo, &[u8]), LineError>
    ensures { Gives (λ field. (field.0.0, field.1.now)) result (leading_seat bytes.now) }
{
    let (seat, rest) = number(65535, bytes)?;
    Ok((SeatNo(seat as u16), rest))
}

/// The number of a lock: 0 to 4,294,967,295.
#[tactic(auto, unfolding(wit_model::specs::Trace::Reading::leading_lock))]
#[inline(always)]
pub fn lock(bytes: &[u8]) -> Result<(LockNo, &[u8]), LineError>
    ensures { Gives (λ field. (field.0.0, field.1.now)) result (leading_lock bytes.now) }
{
    let (lock, rest) = number(u32::MAX, bytes)?;
    Ok((LockNo(lock), rest))
}

/// A number behind a fixed word: 0 to 4,294,967,295.
#[tactic(auto, unfolding(wit_model::specs::Trace::Reading::leading_count))]
pub fn count<'a>(label: &[u8], bytes: &'a [u8]) -> Result<(u32, &'a [u8]), LineError>
    ensures { Gives (λ field. (field.0, field.1.now)) result
        (behind label.now leading_count bytes.now) }
{
    number(u32::MAX, fixed(label, bytes)?)
}
