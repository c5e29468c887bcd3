//! What is known of the processes of a run.

ghost use Rattle.std.specs.Prelude.{◌≡◌, ◌+◌, ◌<◌, ◌≤◌, [], IfOk, IfSome, OnOk, length, map};
ghost use Rattle.wit_recorded.specs.Reading.{line_of};
ghost use Rattle.wit_findings.specs.Findings.{EntersRun};
ghost use Rattle.wit_findings.specs.Runs.{bads, bads_of, found, is_number, known, nothing_told};
ghost use Rattle.wit_findings.specs.Runs.{place_of, precedes, taken, turned, with_one};
ghost use Rattle.wit_findings.specs.Steps.{outcome, turns_to};
ghost use Rattle.wit_findings.specs.Told.{told};

use crate::recording::Recording;
use std::alloc::{AllocError, Global};
use std::mem;
use wit_recorded::{Line, LineError, recorded_line};

/// The recordings of a run's processes.
#[derive(Drop)]
pub struct Processes {
    /// That of the process that lines are of.
    pub current: Recording,
    /// Those of the others, in the order of their numbers.
    pub others: Vec<Recording>,
}

impl Processes {
    /// Lines are of a process without a number at first, of which nothing is known. There are no others.
    ///
    /// # Errors
    /// Want of memory alone.
    pub fn new(alloc: Global, others: Vec<Recording>) -> Result<Processes, AllocError>
        requires { others.items ≡ [] }
        ensures { IfOk result (λ p. known p ≡ nothing_told) }
    {
        Ok(Processes {
            current: Recording::new(alloc, None)?,
            others,
        })
    }

    /// Enters a line with its number, and puts what is told of it into the text. Whether the reading
    /// goes on.
    ///
    /// # Errors
    /// Want of memory alone.
    #[tactic(auto, using(crate::proofs::Lines::enters_run, crate::proofs::Lines::turns_run))]
    pub fn enter(
        &mut self,
        alloc: Global,
        number: u64,
        bytes: &[u8],
        text: &mut Vec<u8>,
    ) -> Result<bool, AllocError>
        requires room { self.old.current.bads < number }
        requires empty { text.old.items ≡ [] }
        ensures enters { IfOk result (λ goes. EntersRun (known self.old) number
            (outcome (known self.old).now number bytes.now (line_of bytes.now))
            (known self.new) text.new.items goes) }
        ensures counted { OnOk result (bads self.new ≤ bads self.old + 1) }
    {
        match recorded_line(alloc, bytes) {
            Ok(line) => match process_in(&line) {
                Some(process) => {
                    self.turn(alloc, number, process)?;
                    Ok(true)
                }
                None => self.current.follow(alloc, number, line, text),
            },
            Err(LineError::Bad(_)) => {
                self.current.pass_over(alloc, number, bytes, text)?;
                Ok(true)
            }
            Err(LineError::Memory) => Err(AllocError),
        }
    }

    // From here on lines are of this process.
    fn turn(&mut self, alloc: Global, number: u64, process: u32) -> Result<(), AllocError>
        ensures turned { OnOk result (known self.new ≡ turned (known self.old) number process) }
        ensures counted { OnOk result (bads self.new ≤ bads self.old) }
    {
        if self.current.is_of(process) {
            return Ok(());
        }
        let next = take(&mut self.others, alloc, process)?;
        let before = mem::replace(&mut self.current, next);
        if number != 1 {
            put_back(&mut self.others, before)?;
        }
        Ok(())
    }
}

// Takes the one of that process out of these; where it is none of them, a new one.
fn take(others: &mut Vec<Recording>, alloc: Global, process: u32) -> Result<Recording, AllocError>
    ensures taken { IfOk result (λ r. (told r, map told others.new.items)
        ≡ taken process (map told others.old.items)) }
    ensures counted { IfOk result (λ r. bads_of others.new.items + r.bads
        ≡ bads_of others.old.items) }
{
    match find(others, process) {
        Some(place) => Ok(others.remove(place)),
        None => Recording::new(alloc, Some(process)),
    }
}

fn put_back(others: &mut Vec<Recording>, one: Recording) -> Result<(), AllocError>
    ensures back { OnOk result (map told others.new.items
        ≡ with_one (map told others.old.items) (told one)) }
    ensures counted { OnOk result (bads_of others.new.items ≡ bads_of others.old.items + one.bads) }
{
    let place = place_of(others, one.process);
    others.insert(place, one)?;
    Ok(())
}

impl Recording {
    // Whether it is of this process.
    fn is_of(&self, process: u32) -> bool
        ensures { result ≡ is_number process self.now.process }
    {
        match self.process {
            Some(number) => number == process,
            None => false,
        }
    }
}

// The process that the lines after this one are of, where it says so.
fn process_in(line: &Line) -> Option<u32>
    ensures { result ≡ turns_to line.now }
{
    match line {
        Line::Process(process) => Some(*process),
        _ => None,
    }
}

// Where the one of that process stands among these.
fn find(others: &[Recording], process: u32) -> Option<usize>
    ensures value { result ≡ found process (map told others.now) }
    ensures within { IfSome result (λ place. place < length others.now) }
{
    match others {
        [] => None,
        [first, rest @ ..] => {
            if first.is_of(process) {
                return Some(0);
            }
            match find(rest, process) {
                Some(place) => Some(place + 1),
                None => None,
            }
        }
    }
}

/// So many of these stand before one of that process.
pub fn place_of(others: &[Recording], process: Option<u32>) -> usize
    ensures value { result ≡ place_of process (map told others.now) }
    ensures within { result ≤ length others.now }
{
    match others {
        [] => 0,
        [first, rest @ ..] => {
            if precedes(first.process, process) {
                place_of(rest, process) + 1
            } else {
                0
            }
        }
    }
}

fn precedes(one: Option<u32>, other: Option<u32>) -> bool
    ensures { result ≡ precedes one other }
{
    match (one, other) {
        (None, Some(_)) => true,
        (Some(one), Some(other)) => one < other,
        (_, None) => false,
    }
}
