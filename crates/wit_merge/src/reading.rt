//! What a line says: an order and its origin, how many runs met an order, or how many were counted.

ghost use Rattle.std.specs.Prelude.{◌≡◌, IfOk, option_map};
ghost use Rattle.wit_orders.specs.Reading.{order_line};
ghost use Rattle.wit_merge.specs.Flaws.{Gives};
ghost use Rattle.wit_merge.specs.Reading.{above_0, count_words, counted_words, is_origin, is_plain};
ghost use Rattle.wit_merge.specs.Reading.{is_plain_byte, is_runs, numbered, order_flaw, order_words};
ghost use Rattle.wit_merge.specs.Reading.{pair_flaw, runs_words, unpadded};

use crate::flaws::{Flaw, MergeError};
use std::alloc::AllocError;
use wit_fields::LineError;
use wit_fields::numbers::number_of;
use wit_fields::words::split_before;
use wit_orders::{OrderLine, order_line};

/// How many runs met an order, and the number of the last one that did, 0 where that isn't told.
#[derive(Clone, Copy, Debug)]
pub struct Count {
    pub runs: u32,
    pub last: u32,
}

/// The order that a line says, as it is written, and its origin, which begins with a tab where there
/// is one.
///
/// # Errors
/// `Bad` where it says none.
pub fn order_words(bytes: &[u8]) -> Result<(&[u8], &[u8]), MergeError>
    ensures { Gives (λ words. (words.0.now, words.1.now)) result (order_words bytes.now) }
{
    let (key, origin) = split_before(b'\t', bytes);
    match order_flaw(key, origin)? {
        None => Ok((key, origin)),
        Some(flaw) => Err(MergeError::Bad(flaw)),
    }
}

// What is wrong with an order and its origin.
fn order_flaw(key: &[u8], origin: &[u8]) -> Result<Option<Flaw>, AllocError>
    ensures { IfOk result (λ flaw. flaw ≡ order_flaw (order_line key.now) key.now origin.now) }
{
    match order_line(key) {
        Ok(OrderLine::Pair(from, to)) => Ok(pair_flaw(from, to, key, origin)),
        Ok(OrderLine::Listed(_)) | Err(LineError::Bad(_)) => Ok(Some(Flaw::Order)),
        Err(LineError::Memory) => Err(AllocError),
    }
}

fn pair_flaw(from: &[u8], to: &[u8], key: &[u8], origin: &[u8]) -> Option<Flaw>
    ensures { result ≡ pair_flaw from.now to.now key.now origin.now }
{
    if !is_origin(origin) {
        return Some(Flaw::Origin);
    }
    if !is_plain(key) || !is_plain(origin.get(1..).unwrap_or(b"")) {
        return Some(Flaw::Byte);
    }
    if from == to {
        return Some(Flaw::Itself);
    }
    None
}

// Nothing stands after an order, or where it comes from.
fn is_origin(bytes: &[u8]) -> bool
    ensures { result ≡ is_origin bytes.now }
{
    bytes.is_empty() || bytes.starts_with(b"\t# ")
}

fn is_plain(bytes: &[u8]) -> bool
    ensures { result ≡ is_plain bytes.now }
{
    bytes.iter().all(|byte| is_plain_byte(*byte))
}

fn is_plain_byte(byte: u8) -> bool
    ensures { result ≡ is_plain_byte byte }
{
    byte >= b' ' && byte != 127
}

/// How many runs met an order, and the order.
///
/// # Errors
/// `Bad` where the line doesn't say that.
pub fn counted_words(bytes: &[u8]) -> Result<(Count, &[u8]), MergeError>
    ensures { Gives (λ words. (words.0, words.1.now)) result (counted_words bytes.now) }
{
    let Some((count, order)) = count_words(bytes)? else {
        return Err(MergeError::Bad(Flaw::Count));
    };
    match order_words(order) {
        Ok((key, _origin)) => Ok((count, key)),
        Err(MergeError::Bad(_)) => Err(MergeError::Bad(Flaw::Count)),
        Err(MergeError::Memory) => Err(MergeError::Memory),
    }
}

// The numbers that stand before an order, and what follows them.
fn count_words(bytes: &[u8]) -> Result<Option<(Count, &[u8])>, AllocError>
    ensures { IfOk result (λ r. option_map (λ words. (words.0, words.1.now)) r
        ≡ count_words bytes.now) }
{
    let Some((runs, rest)) = numbered(unpadded(bytes))? else {
        return Ok(None);
    };
    match numbered(rest)? {
        Some((last, order)) => Ok(Some((Count { runs, last }, order))),
        None => Ok(Some((Count { runs, last: 0 }, rest))),
    }
}

// What follows the spaces.
fn unpadded(bytes: &[u8]) -> &[u8]
    ensures { result.now ≡ unpadded bytes.now }
{
    match bytes {
        [b' ', rest @ ..] => unpadded(rest),
        _ => bytes,
    }
}

// A number above 0 before a space, and what follows that.
fn numbered(bytes: &[u8]) -> Result<Option<(u32, &[u8])>, AllocError>
    ensures { IfOk result (λ r. option_map (λ words. (words.0, words.1.now)) r
        ≡ numbered bytes.now) }
{
    let (word, rest) = split_before(b' ', bytes);
    let Some(number) = above_0(word)? else {
        return Ok(None);
    };
    match rest {
        [b' ', rest @ ..] => Ok(Some((number, rest))),
        _ => Ok(None),
    }
}

// The number above 0 that a word spells.
fn above_0(word: &[u8]) -> Result<Option<u32>, AllocError>
    ensures { IfOk result (λ number. number ≡ above_0 word.now) }
{
    match number_of(u32::MAX, word) {
        Ok(0) | Err(LineError::Bad(_)) => Ok(None),
        Ok(number) => Ok(Some(number)),
        Err(LineError::Memory) => Err(AllocError),
    }
}

/// Whether the line is to say how many runs were counted.
pub fn is_runs(bytes: &[u8]) -> bool
    ensures { result ≡ is_runs bytes.now }
{
    let (word, _rest) = split_before(b' ', bytes);
    word == b"runs".as_slice()
}

/// How many runs were counted, as such a line says it.
///
/// # Errors
/// Want of memory alone.
pub fn runs_words(bytes: &[u8]) -> Result<Option<u32>, AllocError>
    ensures { IfOk result (λ runs. runs ≡ runs_words bytes.now) }
{
    let (_word, rest) = split_before(b' ', bytes);
    match rest {
        [b' ', number @ ..] => above_0(number),
        _ => Ok(None),
    }
}
