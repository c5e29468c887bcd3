//! What each thread has, and what it finds wrong.

ghost use Rattle.std.specs.Prelude.{◌≡◌};

use crate::locks::Watched;
use crate::random::Random;
use std::alloc::Global;
use wit_model::{Fault, FileNo, LockNo, Site};
use wit_shared::{Observer, Room, Seat, Shared};

/// Where the threads are.
#[derive(Drop)]
pub(crate) struct Place<'a, J: Room, R> {
    pub(crate) rt: &'a R,
    pub(crate) alloc: Global,
    pub(crate) shared: &'a Shared<J>,
    pub(crate) locks: &'a [Watched<J>],
    /// Whether the watch is turned to quiet and back in the rounds. No release is forbidden in them
    /// then: a verifier that is quiet passes over that it is allowed again.
    pub(crate) quiet: bool,
}

impl<J: Room, R> Place<'_, J, R> {
    /// How many locks there are.
    pub(crate) fn count(&self) -> u32 {
        u32::try_from(self.locks.len()).unwrap_or(0)
    }
}

/// A thread's seat, its observer, and what it has seen.
pub(crate) struct Worker<J: Room> {
    pub(crate) seat: Seat<J>,
    pub(crate) observer: Observer<J>,
    pub(crate) random: Random,
    pub(crate) file: FileNo,
    /// Whether it is the one that turns the watch in the rounds.
    pub(crate) turns: bool,
    pub(crate) tally: Tally,
}

/// How often a thread was answered what the log doesn't keep.
#[derive(Clone, Copy, Debug, Default)]
pub(crate) struct Questions {
    /// That no seat is left.
    pub(crate) seat: u32,
    /// The number of its file.
    pub(crate) file: u32,
    /// That a lock is held.
    pub(crate) assert_lock: u32,
    /// That one lock is held.
    pub(crate) warn: u32,
    /// The types of two locks.
    pub(crate) look: u32,
    /// That no threads wait for one another.
    pub(crate) wait_circle: u32,
    /// News of the adopted orders.
    pub(crate) news: u32,
    /// That what its observer knows is a beginning of them.
    pub(crate) covers: u32,
}

/// One more.
pub(crate) fn count(answers: &mut u32) {
    *answers = (*answers).saturating_add(1);
}

/// An accepted call that the log always has.
#[derive(Clone, Copy)]
pub(crate) enum Made {
    Check,
    Note,
    Try,
    GiveUp,
    Unlock,
}

/// Such calls of a seat, one after the other.
#[derive(Clone, Copy, Default, PartialEq, Eq)]
pub(crate) struct List {
    /// How many there are.
    pub(crate) calls: u64,
    /// What tells two lists apart: a number that each call and its lock change, in their turn.
    pub(crate) mark: u64,
}

impl List {
    /// One more.
    pub(crate) fn add(&mut self, made: Made, lock: LockNo) {
        let call = match made {
            Made::Check => 1,
            Made::Note => 2,
            Made::Try => 3,
            Made::GiveUp => 4,
            Made::Unlock => 5,
        };
        let entry = u64::from(lock.0) * 8 + call;
        self.calls = self.calls.saturating_add(1);
        self.mark = self.mark.wrapping_mul(6_364_136_223_846_793_005);
        self.mark = self.mark.wrapping_add(entry);
    }
}

/// What a thread counts.
#[derive(Clone, Copy)]
pub(crate) struct Tally {
    /// Its accepted calls of those kinds.
    pub(crate) list: List,
    /// Calls that were refused.
    pub(crate) refused: u64,
    /// Those of them for which there was no memory.
    pub(crate) memory: u64,
    /// What it asked of the verifier, and was answered.
    pub(crate) questions: Questions,
    /// How many orders the observer saw the last time.
    pub(crate) orders: u32,
    /// What shouldn't be, if anything was: the first of it.
    pub(crate) wrong: Option<&'static str>,
}

impl Tally {
    /// Nothing yet.
    pub(crate) fn new() -> Tally {
        Tally {
            list: List::default(),
            refused: 0,
            memory: 0,
            questions: Questions::default(),
            orders: 0,
            wrong: None,
        }
    }

    /// An accepted call more.
    pub(crate) fn add(&mut self, made: Made, lock: LockNo) {
        self.list.add(made, lock);
    }

    /// A refused call more. Some faults no call here can meet.
    pub(crate) fn refuse(&mut self, fault: Fault) {
        self.refused = self.refused.saturating_add(1);
        match fault {
            Fault::OutOfMemory => self.memory = self.memory.saturating_add(1),
            Fault::UnknownSeat
            | Fault::UnknownLock
            | Fault::NotLocked
            | Fault::ForbiddenUnlock
            | Fault::Busy
            | Fault::Pending
            | Fault::NotRequested
            | Fault::LogFull
            | Fault::WatchOff
            | Fault::UnknownFile => self.blame("a call meets a fault that it can't have"),
            _ => {}
        }
    }

    /// Says what is wrong, unless something was before.
    pub(crate) fn blame(&mut self, what: &'static str) {
        if self.wrong.is_none() {
            self.wrong = Some(what);
        }
    }
}

impl<J: Room> Worker<J> {
    /// Its seat and what it counted. The rest is let go.
    pub(crate) fn into_parts(self) -> (Seat<J>, Tally) {
        let Worker {
            seat,
            observer: _,
            random: _,
            file: _,
            turns: _,
            tally,
        } = self;
        (seat, tally)
    }

    /// Gives its seat up.
    pub(crate) fn let_go(self) {
        let (seat, _tally) = self.into_parts();
        seat.abandon();
    }

    /// A place in the program, which is made up.
    pub(crate) fn site(&mut self) -> Site
        ensures { self.new.seat ≡ self.old.seat }
    {
        Site {
            file: self.file,
            line: self.random.below(1000),
        }
    }
}
