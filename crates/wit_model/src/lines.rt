//! The lines of a trace.

use crate::calls::NewLock;
use crate::faults::Fault;
use crate::flags::{LockAssert, OpFlags, WarnFlags};
use crate::locks::{LockNo, Mode, SeatNo, Watch};
use crate::names::{FileName, Name};
use crate::raw_steps::RawStep;
use crate::type_lists::TypeList;

/// A version of the format.
#[derive(Clone, Copy, Debug, PartialEq, Eq, Hash)]
pub enum Version {
    /// The first: the calls alone.
    One,
    /// The second: the steps of the locks themselves too.
    Two,
}

/// What becomes of a lock by a line that names nothing but it and a seat.
#[derive(Clone, Copy, Debug, PartialEq, Eq, Hash)]
pub enum Verb {
    /// `lock`: the lock asked for was acquired.
    Note,
    /// `giveup`: the lock asked for wasn't acquired.
    GiveUp,
    /// `destroy`: a lock is done with.
    Destroy,
    /// `upgrade`: a lock held shared becomes held exclusively.
    Upgrade,
    /// `downgrade`: a lock held exclusively becomes held shared.
    Downgrade,
    /// `norelease`: a held lock isn't to be released.
    NoRelease,
    /// `releaseok`: a held lock may be released again.
    ReleaseOk,
}

/// The first word of a line, which says what its fields are.
#[derive(Clone, Copy, Debug, PartialEq, Eq, Hash)]
pub enum Keyword {
    /// `witness-trace`.
    Header,
    /// `profile`.
    Profile,
    /// `order`.
    Order,
    /// `bless`.
    Bless,
    /// `init`.
    Init,
    /// `check`.
    Check,
    /// `try`.
    Try,
    /// `unlock`.
    Unlock,
    /// That of a verb.
    Plain(Verb),
    /// `take`.
    Take,
    /// `trytake`.
    TryTake,
    /// `free`.
    Free,
    /// `rawup`.
    RawUp,
    /// `rawdown`.
    RawDown,
    /// `assert`.
    Assert,
    /// `warn`.
    Warn,
    /// `define`.
    Define,
    /// `watch`.
    Watch,
}

/// A line by which a lock is asked for, acquired or released, what is recorded of it changes, or a
/// seat does something to the lock itself. `F` is what names a file.
#[derive(Debug, Drop)]
pub enum LockLine<F> {
    /// `check`: a lock is about to be acquired, at a line of a file.
    Check {
        seat: SeatNo,
        lock: LockNo,
        mode: Mode,
        ops: OpFlags,
        file: F,
        line: u32,
    },
    /// `try`: a lock was acquired without waiting, at a line of a file.
    Try {
        seat: SeatNo,
        lock: LockNo,
        mode: Mode,
        file: F,
        line: u32,
    },
    /// `unlock`: a lock is released, as one held in this mode.
    Unlock {
        seat: SeatNo,
        lock: LockNo,
        mode: Mode,
    },
    /// The verb says it all.
    Plain {
        verb: Verb,
        seat: SeatNo,
        lock: LockNo,
    },
    /// `take`, `trytake`, `free`, `rawup`, `rawdown`: a step of the lock itself, of which the
    /// verifier isn't told. Only the second version has it.
    Step {
        seat: SeatNo,
        lock: LockNo,
        step: RawStep,
    },
}

/// A line of a trace.
#[derive(Debug, Drop)]
pub enum Line {
    /// The version of the format, and how many seats, types, locks and chunks the verifier is to
    /// have room for.
    Header {
        version: Version,
        seats: u32,
        types: u32,
        locks: u32,
        chunks: u32,
    },
    /// `profile all`: requests are compared with all held locks. It may only be the second line.
    Profile,
    /// `order`: types whose locks are taken in this order, one or more.
    Order {
        list: TypeList,
    },
    /// `bless`: two types whose locks may be taken in either order.
    Bless {
        first: Name,
        second: Name,
    },
    /// `init`: a lock is made.
    Init {
        seat: SeatNo,
        lock: NewLock,
    },
    /// Something becomes of a lock.
    OnLock(LockLine<FileName>),
    /// `assert`: something is asserted of a lock.
    Assert {
        seat: SeatNo,
        lock: LockNo,
        asserted: LockAssert,
    },
    /// `warn`: no lock should be held but this one, where there is one, and those that the flags
    /// allow.
    Warn {
        seat: SeatNo,
        lock: Option<LockNo>,
        flags: WarnFlags,
    },
    /// `define`: locks of the first one's type are acquired before those of the second one's.
    Define {
        seat: SeatNo,
        first: LockNo,
        second: LockNo,
    },
    /// `watch`: how much the verifier is to do from here on.
    Watch {
        seat: SeatNo,
        watch: Watch,
    },
}

/// Why a trace ends at a line.
#[derive(Clone, Copy, Debug, PartialEq, Eq, Hash)]
pub enum Cause {
    /// More than 4,096 bytes before a line feed or the end of the input.
    Long,
    /// The input ends within the line, or before the header.
    Cut,
    /// No such line, or none such there.
    Syntax,
    /// The trace has another version than the one that is read.
    Version,
    /// A number of the header is 0 or over its greatest value.
    Limit,
    /// The call was refused, or the static list.
    Fault(Fault),
}

/// What a replay writes.
#[derive(Clone, Copy, Debug, PartialEq, Eq, Hash)]
pub enum View {
    /// The texts of reports, failed assertions and warnings, as they come.
    Reports,
    /// The direct orders of lock types, after the whole trace.
    Graph,
    /// The held locks of all seats, after the whole trace.
    Locks,
    /// A circle of seats that wait for one another, after the whole trace, or that there is none.
    Circle,
}
