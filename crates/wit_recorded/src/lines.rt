//! What a line of a recording says.

ghost use Rattle.std.specs.Prelude.{◌≡◌, IfOk};

use std::alloc::{AllocError, Global};
use std::marker::Model;
use wit_model::{Class, LockNo, Mode, Name, SeatNo};

/// The version of recordings that is read.
pub const VERSION: u32 = 8;

/// So many locks at most are told of besides those of a pair.
pub const MOST_BESIDES: usize = 4;

/// The first word of a line that tells something, which says what its fields are.
#[derive(Clone, Copy, Debug, PartialEq, Eq, Hash)]
pub enum Word {
    /// `check`.
    Check,
    /// `lock`.
    Lock,
    /// `unlock`.
    Unlock,
    /// `try`.
    Try,
    /// `giveup`.
    GiveUp,
    /// `init`.
    Init,
    /// `name`.
    Name,
    /// `thread`.
    Thread,
    /// `asked`.
    Asked,
    /// `look`.
    Look,
    /// `process`.
    Process,
    /// `error`.
    Error,
    /// `again`.
    Again,
    /// `foreign`.
    Foreign,
    /// `pair`.
    Pair,
    /// `many`.
    Many,
    /// `life`.
    Life,
    /// `joined`.
    Joined,
    /// `grade`.
    Grade,
}

/// An error in the use of a lock.
#[derive(Clone, Copy, Debug, PartialEq, Eq, Hash)]
pub enum Misuse {
    /// `ended`: its thread ended while it held the lock.
    Ended,
    /// `destroyed`: the lock was destroyed while it was held.
    Destroyed,
    /// `freed`: its memory was freed while it was held.
    Freed,
    /// `remade`: it was made anew while it was held.
    Remade,
    /// `waited`: a condition was waited for without it.
    Waited,
    /// `reread`: it prefers writers, and its reader asked for it again.
    Reread,
    /// `again`: a thread waits for it that holds it.
    Again,
    /// `foreign`: a thread released it that didn't hold it.
    Foreign,
}

/// What a seat asked for, or tried, and where.
#[derive(Clone, Copy, Debug, PartialEq, Eq, Hash)]
pub struct Asked {
    /// Who did.
    pub seat: SeatNo,
    /// The lock, by its number in the recording.
    pub lock: LockNo,
    /// How it is to be held.
    pub mode: Mode,
    /// The number of the place in the recording; 0 where nothing is known of it.
    pub place: u32,
    /// The number of the stack in the recording, 0 for none.
    pub stack: u32,
}

/// A single lock of a pair, and how it is held or asked for.
#[derive(Clone, Copy, Debug, PartialEq, Eq, Hash)]
pub struct PairLock {
    /// Its number in the recording, 0 where it has none. Another lock may have had that before.
    pub number: u32,
    /// Its serial number, which no other lock has.
    pub serial: u32,
    /// The number of its type; 0 where there was no room for it.
    pub of: u32,
    /// The mode.
    pub mode: Mode,
}

/// In which way a single lock is asked for.
#[derive(Clone, Copy, Debug, PartialEq, Eq, Hash)]
pub enum How {
    /// Until it is had.
    Plainly,
    /// With a time limit.
    ForATime,
    /// With a time limit, again and again.
    Repeatedly,
    /// As a wait for a condition ends.
    AsAWaitEnds,
}

/// Locks that were held besides.
#[derive(Debug, Drop)]
pub struct Besides {
    locks: Vec<PairLock>,
}

impl Model for Besides {
    ghost use Rattle.std.specs.Prelude.{List};
    ghost use Rattle.wit_recorded.specs.declared.lines.PairLock.{PairLock};

    ghost Value = { List PairLock };

    ghost view = { λ b. b.locks.items };
}

impl Besides {
    /// These.
    pub fn new(locks: Vec<PairLock>) -> Besides
        ensures { result ≡ locks.items }
    {
        Besides { locks }
    }

    /// The same ones.
    ///
    /// # Errors
    /// Want of memory alone.
    pub fn copy(&self, alloc: Global) -> Result<Besides, AllocError>
        ensures { IfOk result (λ besides. besides ≡ self.now) }
    {
        let mut locks = Vec::new(alloc);
        locks.extend_from_slice(&self.locks)?;
        Ok(Besides { locks })
    }

    /// Each of them.
    pub fn locks(&self) -> &[PairLock]
        ensures { result.now ≡ self.now }
    {
        &self.locks
    }
}

/// A thread asked for one single lock while it held another one.
#[derive(Debug, Drop)]
pub struct Pair {
    /// The thread, as the kernel counts.
    pub thread: u32,
    /// How many threads had been made and joined by then.
    pub when: u32,
    /// The number of the place in the recording.
    pub place: u32,
    /// The held lock.
    pub held: PairLock,
    /// It was acquired while the lock was held that is asked for.
    pub under: bool,
    /// The lock that is asked for.
    pub asked: PairLock,
    /// In which way.
    pub how: How,
    /// More than two threads have done so by then.
    pub further: bool,
    /// What was held besides, each time so far.
    pub besides: Besides,
}

/// What a line says.
#[derive(Debug, Drop)]
pub enum Line {
    /// A recording of this version begins; and whether it lacks calls, or locks that a thread held.
    Begun(u32, bool),
    /// The types of this number have this name.
    Name(u32, Name),
    /// A seat makes the next lock: its class, whether it is recursive, and the number of its type.
    Init(SeatNo, Class, bool, u32),
    /// From here on the seat is the thread's with this number.
    Thread(SeatNo, u32),
    /// A lock is asked for.
    Check(Asked),
    /// A lock was acquired without waiting.
    Try(Asked),
    /// The lock that was asked for was acquired.
    Lock(SeatNo, LockNo),
    /// It wasn't.
    GiveUp(SeatNo, LockNo),
    /// A lock that is held so is released.
    Unlock(SeatNo, LockNo, Mode),
    /// An error in the use of a lock: which one it is, by whom, and the number of its place.
    Error(Misuse, SeatNo, LockNo, u32),
    /// It is asked what is known now.
    Look,
    /// The lines after it are of the process with this number.
    Process(u32),
    /// A thread asked for one single lock while it held another one.
    Pair(Pair),
    /// There may be pairs that aren't told of.
    Many,
    /// A thread was made by that one, when so many had been made and joined.
    Life(u32, u32, u32),
    /// A thread was joined by that one, when so many had been made and joined.
    Joined(u32, u32, u32),
    /// The grade of the report of this line is asked for.
    Grade(u32),
    /// Something that no finding needs.
    Passed,
}
