//! Numbers of a line.

ghost use Rattle.std.specs.Prelude.{◌≡◌, Some};
ghost use Rattle.wit_traced.specs.Numbers.{decimal, decimal_digit, hexadecimal, hexadecimal_digit};
ghost use Rattle.wit_traced.specs.Numbers.{number_from, with_digit};

use crate::pieces::without;

/// A decimal number, of one digit or more.
pub fn decimal(bytes: &[u8]) -> Option<u64>
    ensures { result ≡ decimal bytes.now }
{
    match bytes {
        [] => None,
        [_, ..] => decimal_from(bytes, 0),
    }
}

fn decimal_from(bytes: &[u8], value: u64) -> Option<u64>
    ensures { result ≡ number_from 10 decimal_digit bytes.now (Some value) }
{
    match bytes {
        [] => Some(value),
        [byte, others @ ..] => {
            let value = with_digit(10, value, decimal_digit(*byte))?;
            decimal_from(others, value)
        }
    }
}

/// A number by hexadecimal digits, behind `0x` or not.
pub fn hexadecimal(bytes: &[u8]) -> Option<u64>
    ensures { result ≡ hexadecimal bytes.now }
{
    let digits = without(b"0x", bytes);
    match digits {
        [] => None,
        [_, ..] => hexadecimal_from(digits, 0),
    }
}

fn hexadecimal_from(bytes: &[u8], value: u64) -> Option<u64>
    ensures { result ≡ number_from 16 hexadecimal_digit bytes.now (Some value) }
{
    match bytes {
        [] => Some(value),
        [byte, others @ ..] => {
            let value = with_digit(16, value, hexadecimal_digit(*byte))?;
            hexadecimal_from(others, value)
        }
    }
}

// A number, and a further digit.
fn with_digit(base: u64, value: u64, digit: Option<u8>) -> Option<u64>
    ensures { result ≡ with_digit base value digit }
{
    value.checked_mul(base)?.checked_add(u64::from(digit?))
}

fn decimal_digit(digit: u8) -> Option<u8>
    ensures { result ≡ decimal_digit digit }
{
    match digit {
        b'0'..=b'9' => Some(digit - b'0'),
        _ => None,
    }
}

fn hexadecimal_digit(digit: u8) -> Option<u8>
    ensures { result ≡ hexadecimal_digit digit }
{
    match digit {
        b'0'..=b'9' => Some(digit - b'0'),
        b'a'..=b'f' => Some(digit - b'a' + 10),
        b'A'..=b'F' => Some(digit - b'A' + 10),
        _ => None,
    }
}
