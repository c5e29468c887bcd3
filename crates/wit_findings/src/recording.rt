//! What is known of a recording.

ghost use Rattle.std.specs.Prelude.{◌≡◌, None, IfOk, length};
ghost use Rattle.std.specs.Option.{option_copied};
ghost use Rattle.wit_model.specs.Rules.Numbers.{with_number};
ghost use Rattle.wit_model.specs.Trace.Paths.{type_numbers};
ghost use Rattle.wit_model.specs.declared.locks.LockNo.{LockNo};
ghost use Rattle.wit_findings.specs.Told.{lock_number, named_type, no_threads, nothing_of};
ghost use Rattle.wit_findings.specs.Told.{number_of};
ghost use Rattle.wit_findings.specs.Told.{thread_of, told};

use crate::spots::Spot;
use std::alloc::{AllocError, Global};
use std::marker::Model;
use wit_core::Verifier;
use wit_model::{Cause, Limits, LockNo, Name, SeatNo, TypeNo};
use wit_tellings::Tellings;

/// Types, one after another.
#[derive(Drop)]
pub struct Way {
    types: Vec<TypeNo>,
}

impl Model for Way {
    ghost use Rattle.std.specs.Prelude.{ℕ, List};
    ghost use Rattle.wit_model.specs.Trace.Paths.{type_numbers};

    ghost Value = { List ℕ };

    ghost view = { λ w. type_numbers w.types.items };
}

impl Way {
    /// These.
    pub fn new(types: Vec<TypeNo>) -> Way
        ensures { result ≡ type_numbers types.items }
    {
        Way { types }
    }

    /// How many there are.
    pub fn count(&self) -> usize
        ensures { result ≡ length self.now }
    {
        self.types.len()
    }

    /// Each of them.
    pub fn types(&self) -> &[TypeNo]
        ensures { type_numbers result.now ≡ self.now }
    {
        &self.types
    }
}

/// A report of an order, or of a second lock of a type.
#[derive(Drop)]
pub struct Reported {
    /// The number of its line.
    pub line: u64,
    /// The types of its circle: the one of the lock that was asked for first.
    pub types: Way,
}

/// What is known of the recording of a process so far.
#[derive(Drop)]
pub struct Recording {
    /// The number of the process, where it has one.
    pub process: Option<u32>,
    pub verifier: Verifier,
    /// The names of types, by their numbers.
    pub names: Vec<(u32, Name)>,
    /// For each lock of the recording its number in the verifier, 0 where it has none.
    pub locks: Vec<u32>,
    /// For each lock of the verifier its number in the recording.
    pub made: Vec<u64>,
    /// The thread that has each seat, 0 where none is known.
    pub threads: Vec<u32>,
    /// Where locks were asked for: the verifier has their numbers as lines.
    pub spots: Vec<Spot>,
    /// What was told of single locks and of threads.
    pub tellings: Tellings,
    /// The reports of orders.
    pub reports: Vec<Reported>,
    /// How many lines were bad, and the first.
    pub bads: u64,
    pub bad: Option<(u64, Cause)>,
}

impl Recording {
    /// One of this process of which nothing is known.
    ///
    /// # Errors
    /// Want of memory alone.
    pub fn new(alloc: Global, process: Option<u32>) -> Result<Recording, AllocError>
        ensures { IfOk result (λ r. told r ≡ nothing_of process) }
    {
        Ok(Recording {
            process,
            verifier: new_verifier(alloc)?,
            names: Vec::new(alloc),
            locks: Vec::new(alloc),
            made: Vec::new(alloc),
            threads: no_threads(alloc)?,
            spots: Vec::new(alloc),
            tellings: Tellings::new(alloc),
            reports: Vec::new(alloc),
            bads: 0,
            bad: None,
        })
    }

    /// The verifier's number of a lock; 0, which is none's, where it has none.
    pub fn lock(&self, lock: LockNo) -> LockNo
        ensures { result ≡ record { 0 = lock_number (told self.now) lock.0 } }
    {
        if lock.0 == 0 {
            return LockNo(0);
        }
        match self.locks.get(lock.0 as usize - 1) {
            Some(number) => LockNo(*number),
            None => LockNo(0),
        }
    }

    /// The recording's number of a lock that the verifier has; 0 for none.
    pub fn number_of(&self, lock: LockNo) -> u64
        ensures { result ≡ number_of (told self.now) lock.0 }
    {
        if lock.0 == 0 {
            return 0;
        }
        match self.made.get(lock.0 as usize - 1) {
            Some(number) => *number,
            None => 0,
        }
    }

    /// The thread that has a seat; 0 where none is known.
    pub fn thread_of(&self, seat: SeatNo) -> u32
        ensures { result ≡ thread_of (told self.now) seat.0 }
    {
        if seat.0 == 0 {
            return 0;
        }
        match self.threads.get(seat.0 as usize - 1) {
            Some(thread) => *thread,
            None => 0,
        }
    }

    /// Where that line of the verifier's is.
    pub fn spot(&self, line: u32) -> Option<Spot>
        ensures { result ≡ with_number self.now.spots.items line }
    {
        if line == 0 {
            return None;
        }
        self.spots.get(line as usize - 1).copied()
    }
}

#[tactic(auto, unfolding(crate::specs::Told::no_threads))]
fn no_threads(alloc: Global) -> Result<Vec<u32>, AllocError>
    ensures { IfOk result (λ threads. threads.items ≡ no_threads) }
{
    vec![in alloc; 0; Limits::MOST_SEATS as usize]
}

fn new_verifier(alloc: Global) -> Result<Verifier, AllocError>
    ensures { IfOk result (λ v. v ≡ (nothing_of None).story) }
{
    let Some(limits) = Limits::new(
        Limits::MOST_SEATS,
        Limits::MOST_TYPES,
        Limits::MOST_LOCKS,
        Limits::MOST_CHUNKS,
        Limits::MOST_ENTRIES,
    ) else {
        return Err(AllocError);
    };
    let made = Verifier::new_all_held(alloc, limits, Vec::new(alloc), Vec::new(alloc));
    // Nothing is refused but for want of memory: there is no list, and no pair is blessed.
    let Ok(mut verifier) = made else {
        return Err(AllocError);
    };
    match verifier.file("@") {
        Ok(_) => Ok(verifier),
        Err(_) => Err(AllocError),
    }
}

/// The name of the types of this number.
pub fn named_type(names: &[(u32, Name)], number: u32) -> Option<&Name>
    ensures { option_copied result ≡ named_type names.now number }
{
    match names {
        [] => None,
        [(of, name), others @ ..] => {
            if *of == number {
                Some(name)
            } else {
                named_type(others, number)
            }
        }
    }
}
