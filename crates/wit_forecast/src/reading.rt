//! A trace of the second version as its lines are read: what each does, and which are reported.

use crate::deeds::{Act, Deed};
use std::alloc::{AllocError, Global};
use std::mem;
use wit_grammar::{LineError, parse_line};
use wit_lines::{
    LineCall, Prelude, add_line, call_of, file_of, is_prelude, new_prelude, verifier_of,
};
use wit_model::{Call, Fault, FileNo, Limits, Line, LockNo, Mode, RawStep, Reply, SeatNo, Version};
use wit_world::World;

/// A request that was reported: a reversal, or a second lock of a type.
#[derive(Clone, Copy, Debug, PartialEq, Eq)]
pub struct Report {
    /// The place of the request among the deeds.
    pub place: usize,
    /// The held lock that the report names.
    pub held: LockNo,
    /// The lock asked for.
    pub asked: LockNo,
}

// How far the reading is.
#[derive(Drop)]
enum Progress {
    Unstarted,
    Opening(Prelude),
    Stepping(World),
    // A line has no place there. Nothing is entered any more.
    Over,
}

/// What was read of a trace.
#[derive(Drop)]
pub struct Trace {
    progress: Progress,
    /// Whether it is of the first version.
    pub is_first_version: bool,
    /// How many lines the prelude has, with the header.
    pub head: usize,
    /// The lines after it.
    pub deeds: Vec<Deed>,
    /// Those that were reported.
    pub reports: Vec<Report>,
    /// Whether all was watched and recorded.
    pub is_watched: bool,
}

impl Trace {
    /// Nothing was read.
    pub fn new(alloc: Global) -> Trace {
        Trace {
            progress: Progress::Unstarted,
            is_first_version: false,
            head: 0,
            deeds: Vec::new(alloc),
            reports: Vec::new(alloc),
            is_watched: true,
        }
    }

    /// The world, where all lines so far were read.
    pub fn world(&self) -> Option<&World> {
        match &self.progress {
            Progress::Stepping(world) => Some(world),
            Progress::Unstarted | Progress::Opening(_) | Progress::Over => None,
        }
    }

    /// Enters a line, with its number from 1. After one that has no place there nothing is entered.
    ///
    /// # Errors
    /// Want of memory alone.
    pub fn enter(&mut self, alloc: Global, number: u64, bytes: &[u8]) -> Result<(), AllocError> {
        self.end_prelude(alloc, number, bytes)?;
        match self.read(alloc, number, bytes) {
            Ok(()) => Ok(()),
            Err(LineError::Bad(_)) => {
                self.progress = Progress::Over;
                Ok(())
            }
            Err(LineError::Memory) => Err(AllocError),
        }
    }

    /// Ends the prelude, where the trace ends in it.
    ///
    /// # Errors
    /// Want of memory alone.
    pub fn end(&mut self, alloc: Global, number: u64) -> Result<(), AllocError> {
        self.end_prelude(alloc, number, b"")
    }

    // The prelude ends before a line that is none of it.
    fn end_prelude(&mut self, alloc: Global, number: u64, bytes: &[u8]) -> Result<(), AllocError> {
        if is_prelude(number, bytes) {
            return Ok(());
        }
        self.progress = match mem::replace(&mut self.progress, Progress::Over) {
            Progress::Opening(prelude) => begin(alloc, prelude)?,
            before => before,
        };
        Ok(())
    }

    fn read(&mut self, alloc: Global, number: u64, bytes: &[u8]) -> Result<(), LineError> {
        let line = parse_line(alloc, bytes)?;
        match &mut self.progress {
            Progress::Unstarted => self.start(alloc, line),
            Progress::Opening(prelude) => {
                let _nothing = add_line(alloc, prelude, number, line)?;
                self.head = self.head.saturating_add(1);
                Ok(())
            }
            Progress::Stepping(world) => {
                let done = do_line(alloc, world, line)?;
                self.add(done)?;
                Ok(())
            }
            Progress::Over => Ok(()),
        }
    }

    fn start(&mut self, alloc: Global, line: Line) -> Result<(), LineError> {
        let Line::Header {
            version,
            seats,
            types,
            locks,
            chunks,
        } = line
        else {
            return Err(LineError::SYNTAX);
        };
        let Some(limits) = Limits::new(seats, types, locks, chunks, Limits::MOST_ENTRIES) else {
            return Err(LineError::SYNTAX);
        };
        self.is_first_version = matches!(version, Version::One);
        self.head = 1;
        self.progress = match version {
            Version::One => Progress::Over,
            Version::Two => Progress::Opening(new_prelude(alloc, version, limits)),
        };
        Ok(())
    }

    fn add(&mut self, done: Done) -> Result<(), AllocError> {
        if let Some((held, asked)) = done.reported {
            let place = self.deeds.len();
            self.reports.push(Report { place, held, asked })?;
        }
        self.is_watched = self.is_watched && done.is_watched;
        self.deeds.push(Deed {
            seat: done.seat,
            act: done.act,
            greatest: done.greatest,
        })?;
        Ok(())
    }
}

// The world that the prelude asks for; none where a list is refused.
fn begin(alloc: Global, prelude: Prelude) -> Result<Progress, AllocError> {
    match verifier_of(alloc, prelude)? {
        Ok(verifier) => match World::new(alloc, verifier) {
            Ok(world) => Ok(Progress::Stepping(world)),
            Err(_) => Err(AllocError),
        },
        Err(_) => Ok(Progress::Over),
    }
}

// What became of a line.
#[derive(Drop)]
struct Done {
    seat: SeatNo,
    act: Act,
    greatest: u32,
    reported: Option<(LockNo, LockNo)>,
    is_watched: bool,
}

// A line that does nothing to a lock itself.
fn idle(seat: SeatNo, greatest: u32) -> Done {
    Done {
        seat,
        act: Act::Other,
        greatest,
        reported: None,
        is_watched: true,
    }
}

fn do_line(alloc: Global, world: &mut World, line: Line) -> Result<Done, LineError> {
    let file = match file_of(&line) {
        Some(file) => world.file(file)?,
        None => FileNo(0),
    };
    match call_of(alloc, line, file)? {
        LineCall::Logs(seat, call) => do_call(world, seat, call),
        LineCall::Steps(seat, lock, step) => do_step(world, seat, lock, step),
        LineCall::Asserts(seat, lock, _) => Ok(idle(seat, lock.0)),
        LineCall::Warns(seat, lock, _) => Ok(idle(
            seat,
            match lock {
                Some(lock) => lock.0,
                None => 0,
            },
        )),
        LineCall::NoCall => Err(LineError::SYNTAX),
    }
}

fn do_call(world: &mut World, seat: SeatNo, call: Call) -> Result<Done, LineError> {
    let (act, greatest) = act_of(&call);
    let sets_watch = matches!(call, Call::SetWatch(_));
    let reply = world.call(seat, call)?;
    Ok(Done {
        seat,
        act,
        greatest: match &reply {
            Reply::Made(lock) => lock.0,
            _ => greatest,
        },
        reported: reported_in(&reply),
        is_watched: !sets_watch && is_recorded(&reply),
    })
}

// What a call does to a lock itself, and the greatest number that it names.
fn act_of(call: &Call) -> (Act, u32) {
    match call {
        Call::Init(_) => (Act::Makes, 0),
        Call::Check(request) => (Act::Asks(request.lock, request.mode), request.lock.0),
        Call::Note(lock)
        | Call::NoteTry(lock, ..)
        | Call::GiveUp(lock)
        | Call::Unlock(lock, _)
        | Call::Destroy(lock)
        | Call::Upgrade(lock)
        | Call::Downgrade(lock)
        | Call::NoRelease(lock)
        | Call::ReleaseOk(lock) => (Act::Other, lock.0),
        Call::DefineOrder(first, second) => (Act::Other, first.0.max(second.0)),
        Call::SetWatch(_) => (Act::Other, 0),
    }
}

// The two locks of a report.
fn reported_in(reply: &Reply) -> Option<(LockNo, LockNo)> {
    match reply {
        Reply::Reversal(conflict) => {
            let conflict = conflict.get();
            Some((conflict.held.lock, conflict.asked.lock))
        }
        Reply::Duplicate(doubling) => {
            let doubling = doubling.get();
            Some((doubling.last.lock, doubling.asked.lock))
        }
        _ => None,
    }
}

// Whether nothing was left out for want of chunks, or since not everything is watched.
fn is_recorded(reply: &Reply) -> bool {
    !matches!(reply, Reply::Exhausted | Reply::Unrecorded | Reply::Ignored)
}

fn do_step(
    world: &mut World,
    seat: SeatNo,
    lock: LockNo,
    step: RawStep,
) -> Result<Done, LineError> {
    let asked = match world.verifier().pending(seat) {
        Some((_, mode)) => mode,
        None => Mode::Exclusive,
    };
    world.step(seat, lock, step)?;
    Ok(Done {
        seat,
        act: match step {
            RawStep::Take => Act::Gets(lock, asked),
            RawStep::TryTake(mode) => Act::Tries(lock, mode),
            RawStep::Free => Act::Frees(lock),
            RawStep::Up => Act::Turns(lock, Mode::Exclusive),
            RawStep::Down => Act::Turns(lock, Mode::Shared),
        },
        greatest: lock.0,
        reported: None,
        is_watched: true,
    })
}
