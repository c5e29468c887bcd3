//! The words of the process, as bytes.

ghost use Rattle.std.specs.Prelude.{ℕ, ◌≡◌, List, Err, IfOk, MatchOption, take};
ghost use Rattle.std.specs.declared.env.FillError.TheVariants.{NotPresent};
ghost use Rattle.std.specs.Io.{WritesAtMost};
ghost use Rattle.witness.specs.CommandLine.{bytes_of};
ghost use Rattle.witness.specs.Words.{AreWords};

use std::alloc::{AllocError, Global};
use std::env::FillError;
use std::rt::Env;

/// Where words stand behind a program's name, from place 1 on. A word may be any bytes.
pub trait Words {
    /// This is the word at this place.
    ghost is_word: { Self → ℕ → List ℕ → Type 0 };

    /// No word is at this place.
    ghost is_end: { Self → ℕ → Type 0 };

    /// Puts the word at this place into the room's front, and gives its length.
    fn put_word(&self, place: usize, room: &mut [u8]) -> Result<usize, FillError>
        ensures bound { WritesAtMost result room.new }
        ensures word { IfOk result (λ len. is_word self.now place (take len room.new)) }
        ensures end { result ≡ Err NotPresent → is_end self.now place };
}

/// Those of the process.
#[derive(Drop)]
pub struct Process<'a, R: Env>(pub &'a R);

impl<'a, R: Env> Words for Process<'a, R> {
    // No contract says what the process was given.
    ghost is_word = { λ source place word. Unit {0} };

    ghost is_end = { λ source place. Unit {0} };

    fn put_word(&self, place: usize, room: &mut [u8]) -> Result<usize, FillError> {
        self.0.arg(place, room)
    }
}

/// All words, each whole, in their sequence.
///
/// # Errors
/// Want of memory.
pub fn words_of<S: Words>(source: &S, alloc: Global) -> Result<Vec<Vec<u8>>, AllocError>
    ensures { IfOk result (λ words. AreWords (S.is_word source.now) (S.is_end source.now)
        (bytes_of words.items)) }
{
    let mut words = Vec::new(alloc);
    for place in 1..usize::MAX {
        let Some(word) = word_at(source, alloc, place)? else {
            return Ok(words);
        };
        words.push(word)?;
    }
    unreachable!()
}

/// The word at this place; `None` behind the last one. The room for it is doubled until it fits.
fn word_at<S: Words>(source: &S, alloc: Global, place: usize) -> Result<Option<Vec<u8>>, AllocError>
    ensures { IfOk result (λ found. MatchOption found (S.is_end source.now place)
        (λ word. S.is_word source.now place word.items)) }
{
    let mut room: usize = 256;
    for _ in 0..usize::BITS {
        let mut word = Vec::new(alloc);
        word.resize(room, 0u8)?;
        match source.put_word(place, word.as_mut_slice()) {
            Ok(len) => {
                word.truncate(len);
                return Ok(Some(word));
            }
            Err(FillError::NotPresent) => return Ok(None),
            Err(FillError::TooLong) => room = room.saturating_mul(2),
        }
    }
    Err(AllocError)
}
