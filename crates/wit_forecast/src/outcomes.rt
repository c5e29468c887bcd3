//! What comes of the search for a schedule, and in which words.

ghost use Rattle.std.specs.Prelude.{◌≡◌, ◌⊎◌};

use std::alloc::{AllocError, Global};
use wit_core::Verifier;
use wit_model::{LockNo, SeatNo};

/// A further seat that does what a seat did in a run.
#[derive(Clone, Copy, Debug, PartialEq, Eq, Drop)]
pub struct Copy {
    /// The further seat.
    pub copy: SeatNo,
    /// The seat of the run.
    pub seat: SeatNo,
    /// The place of its first deed.
    pub first: usize,
    /// The place of its last one.
    pub check: usize,
}

/// What came of the search for a schedule.
#[derive(Debug, Drop)]
pub enum Outcome {
    /// This schedule, which begins as the run did.
    Hangs(Vec<u8>),
    /// This one, of errands alone.
    Meets(Vec<u8>),
    /// This one, in which further seats do what seats of the run did.
    Alone(Vec<u8>, Vec<Copy>),
    /// The deed of this place can't be done where the other seats came to their requests.
    Barred(usize),
    /// Two seats have this lock, and not both as readers.
    Gate(LockNo),
    /// Who asks as a reader doesn't wait for readers.
    Readers,
    /// The types make a circle, and no locks do.
    Types,
    /// An order was listed or defined: no request made it.
    Untold,
    /// Not all was looked at.
    Undecided,
}

// How much an outcome says: of two that aren't schedules the one that says more is told.
fn weight(outcome: &Outcome) -> u8 {
    match outcome {
        Outcome::Hangs(_) => 8,
        Outcome::Meets(_) => 7,
        Outcome::Alone(..) => 6,
        Outcome::Undecided => 5,
        Outcome::Barred(_) => 4,
        Outcome::Gate(_) => 3,
        Outcome::Readers => 2,
        Outcome::Types => 1,
        Outcome::Untold => 0,
    }
}

/// The one that says more; the first where both say as much.
pub fn better(one: Outcome, other: Outcome) -> Outcome
    ensures { (result ≡ one) ⊎ (result ≡ other) }
{
    if weight(&one) < weight(&other) {
        other
    } else {
        one
    }
}

/// The words of an outcome that is no schedule, and what stands before one with further seats.
///
/// # Errors
/// Want of memory alone.
pub fn words_of(
    alloc: Global,
    verifier: &Verifier,
    head_lines: usize,
    outcome: &Outcome,
) -> Result<Option<String>, AllocError> {
    let mut words = String::new(alloc);
    match outcome {
        Outcome::Hangs(_) | Outcome::Meets(_) => return Ok(None),
        Outcome::Alone(_, copies) => {
            words.push_str("alone")?;
            for copy in copies {
                put_copy(alloc, &mut words, head_lines, copy)?;
            }
        }
        Outcome::Barred(place) => {
            words.push_str("barred ")?;
            put_line(alloc, &mut words, head_lines, *place)?;
        }
        Outcome::Gate(lock) => put_gate(alloc, &mut words, verifier, *lock)?,
        Outcome::Readers => words.push_str("readers")?,
        Outcome::Types => words.push_str("types")?,
        Outcome::Untold => words.push_str("untold")?,
        Outcome::Undecided => words.push_str("undecided")?,
    }
    Ok(Some(words))
}

fn put_gate(
    alloc: Global,
    words: &mut String,
    verifier: &Verifier,
    lock: LockNo,
) -> Result<(), AllocError> {
    words.push_str("gate ")?;
    put_number(alloc, words, u64::from(lock.0))?;
    if let Some(name) = verifier.lock_name(lock) {
        words.push_str(" \"")?;
        words.push_str(name)?;
        words.push('"')?;
    }
    Ok(())
}

fn put_copy(
    alloc: Global,
    words: &mut String,
    head_lines: usize,
    copy: &Copy,
) -> Result<(), AllocError> {
    words.push_str("; seat ")?;
    put_number(alloc, words, u64::from(copy.copy.0))?;
    words.push_str(" does what seat ")?;
    put_number(alloc, words, u64::from(copy.seat.0))?;
    words.push_str(" did in lines ")?;
    put_line(alloc, words, head_lines, copy.first)?;
    words.push_str(" to ")?;
    put_line(alloc, words, head_lines, copy.check)
}

/// Puts the number of the line of a deed, after so many lines of a prelude.
///
/// # Errors
/// Want of memory alone.
pub fn put_line(
    alloc: Global,
    words: &mut String,
    head_lines: usize,
    place: usize,
) -> Result<(), AllocError> {
    let line = head_lines.saturating_add(place).saturating_add(1);
    put_number(alloc, words, line as u64)
}

/// Puts a number.
///
/// # Errors
/// Want of memory alone.
pub fn put_number(alloc: Global, words: &mut String, number: u64) -> Result<(), AllocError> {
    let digits = number.to_string(alloc)?;
    words.push_str(&digits)
}
