//! Pieces of a line.

ghost use Rattle.std.specs.Prelude.{◌≡◌, ◌+◌, ◌-◌, ◌<◌, ◌≤◌, IfSome, length};
ghost use Rattle.std.specs.Option.{option_copied};
ghost use Rattle.wit_traced.specs.Pieces.{before, before_last, begins, behind, behind_first, behind_last};
ghost use Rattle.wit_traced.specs.Pieces.{has, last_place_of, onward, place, place_of, rest, text_place};
ghost use Rattle.wit_traced.specs.Pieces.{trimmed_end, trimmed_start, without};

use memchr::{memchr, memmem, memrchr};

fn place_of(byte: u8, bytes: &[u8]) -> Option<usize>
    ensures place { result ≡ place_of byte bytes.now }
    ensures within { IfSome result (λ n. n < length bytes.now) }
{
    memchr(byte, bytes)
}

fn last_place_of(byte: u8, bytes: &[u8]) -> Option<usize>
    ensures place { result ≡ last_place_of byte bytes.now }
    ensures within { IfSome result (λ n. n < length bytes.now) }
{
    memrchr(byte, bytes)
}

fn text_place(text: &[u8], bytes: &[u8]) -> Option<usize>
    ensures place { result ≡ text_place text.now bytes.now }
    ensures within { IfSome result (λ n. n + length text.now ≤ length bytes.now) }
{
    memmem::find(bytes, text)
}

/// What stands before the first place of a byte, and what stands from there on.
pub fn before(byte: u8, bytes: &[u8]) -> (&[u8], &[u8])
    ensures front { result.0.now ≡ before byte bytes.now }
    ensures back { result.1.now ≡ onward byte bytes.now }
    ensures lengths { length result.0.now + length result.1.now ≡ length bytes.now }
{
    match place_of(byte, bytes) {
        Some(place) => bytes.split_at(place),
        None => bytes.split_at(bytes.len()),
    }
}

/// What stands behind the last place of a byte, where there is one.
pub fn behind_last(byte: u8, bytes: &[u8]) -> Option<&[u8]>
    ensures { option_copied result ≡ behind_last byte bytes.now }
{
    match last_place_of(byte, bytes) {
        Some(place) => Some(rest(bytes.split_at(place).1)),
        None => None,
    }
}

/// What stands before the last place of a byte, where there is one.
pub fn before_last(byte: u8, bytes: &[u8]) -> Option<&[u8]>
    ensures { option_copied result ≡ before_last byte bytes.now }
{
    match last_place_of(byte, bytes) {
        Some(place) => Some(bytes.split_at(place).0),
        None => None,
    }
}

/// What stands behind the first place of a text, where there is one.
pub fn behind<'a>(text: &[u8], bytes: &'a [u8]) -> Option<&'a [u8]>
    ensures { option_copied result ≡ behind text.now bytes.now }
{
    match text_place(text, bytes) {
        Some(place) => Some(bytes.split_at(place + text.len()).1),
        None => None,
    }
}

/// Whether a text stands there.
pub fn has(text: &[u8], bytes: &[u8]) -> bool
    ensures { result ≡ has text.now bytes.now }
{
    text_place(text, bytes).is_some()
}

/// Whether a text stands first.
pub fn begins(text: &[u8], bytes: &[u8]) -> bool
    ensures value { result ≡ begins text.now bytes.now }
{
    bytes.starts_with(text)
}

/// What stands behind a text that stands first.
pub fn behind_first<'a>(text: &[u8], bytes: &'a [u8]) -> Option<&'a [u8]>
    ensures { option_copied result ≡ behind_first text.now bytes.now }
{
    if bytes.starts_with(text) {
        Some(bytes.split_at(text.len()).1)
    } else {
        None
    }
}

/// Without a text that stands first.
pub fn without<'a>(text: &[u8], bytes: &'a [u8]) -> &'a [u8]
    ensures { result.now ≡ without text.now bytes.now }
{
    match behind_first(text, bytes) {
        Some(others) => others,
        None => bytes,
    }
}

/// Without its first byte.
pub fn rest(bytes: &[u8]) -> &[u8]
    ensures rest { result.now ≡ rest bytes.now }
    ensures length { length result.now ≡ length bytes.now - 1 }
{
    match bytes {
        [] => bytes,
        [_, rest @ ..] => rest,
    }
}

/// Without white space before it.
pub fn trimmed_start(bytes: &[u8]) -> &[u8]
    ensures { result.now ≡ trimmed_start bytes.now }
{
    bytes.trim_ascii_start()
}

/// Without white space behind it.
pub fn trimmed_end(bytes: &[u8]) -> &[u8]
    ensures { result.now ≡ trimmed_end bytes.now }
{
    bytes.trim_ascii_end()
}

/// A place of a program, without the length of its function.
pub fn place(text: &[u8]) -> &[u8]
    ensures { result.now ≡ place text.now }
{
    before(b'/', text).0
}
