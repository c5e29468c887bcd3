//! Facts: which single lock a thread asked for while it held another, and what it held besides.

use wit_model::Mode;

/// A single lock by its serial number, which no other lock ever has.
#[derive(Clone, Copy, Debug, PartialEq, Eq, Hash)]
pub struct Single(pub u32);

/// A thread by a number that no other thread ever has.
#[derive(Clone, Copy, Debug, PartialEq, Eq, Hash)]
pub struct ThreadNo(pub u32);

/// A lock, and how it is held or asked for.
#[derive(Clone, Copy, Debug, PartialEq, Eq, Hash)]
pub struct Had {
    /// The lock.
    pub lock: Single,
    /// The mode.
    pub mode: Mode,
}

/// In which way a lock is asked for.
#[derive(Clone, Copy, Debug, PartialEq, Eq, Hash)]
pub enum Manner {
    /// Until it is had: also with a time limit, again and again.
    Plain,
    /// With a time limit.
    Timed,
    /// As a wait for a condition ends: the thread had the lock in this mode when the wait began.
    EndsWait,
}

/// What one thread did, once or more often: it asked for a lock while it held another one.
#[derive(Debug, Drop)]
pub struct Fact {
    /// The held lock.
    pub held: Had,
    /// Whether the held lock was acquired while the lock was held that is asked for.
    pub under: bool,
    /// The lock that is asked for.
    pub asked: Had,
    /// In which way.
    pub manner: Manner,
    /// Other locks that were held each time. One that ever was shared counts as shared.
    pub besides: Vec<Had>,
    /// The thread; `None` where it isn't known which one it was, or which ones.
    pub thread: Option<ThreadNo>,
    /// When the thread did so first: the number of threads that had been made and joined by then.
    /// 0 where that isn't known.
    pub first: u32,
    /// When it did so last, by the same count. The greatest `u32` where that isn't known.
    pub last: u32,
}

/// A thread was made.
#[derive(Clone, Copy, Debug, PartialEq, Eq, Hash)]
pub struct Life {
    /// The thread.
    pub thread: ThreadNo,
    /// The thread that made it.
    pub maker: ThreadNo,
    /// The number of threads that had been made and joined before.
    pub made_at: u32,
}

/// A thread was joined: it had ended by then.
#[derive(Clone, Copy, Debug, PartialEq, Eq, Hash)]
pub struct Join {
    /// The thread.
    pub thread: ThreadNo,
    /// The thread that joined it.
    pub by: ThreadNo,
    /// The number of threads that had been made and joined before.
    pub at: u32,
}

/// What is known of when threads were made and joined.
#[derive(Debug, Drop)]
pub struct Lives {
    /// At most one for each thread.
    pub made: Vec<Life>,
    /// In any order.
    pub joined: Vec<Join>,
}

/// Which reasons count, of those that keep threads from waiting for one another in a circle.
#[derive(Clone, Copy, Debug, PartialEq, Eq, Hash)]
pub struct Reasons {
    /// One thread can't wait twice at once.
    pub one_thread: bool,
    /// Both threads held one lock, not both as readers.
    pub gate: bool,
    /// Who asks as a reader doesn't wait for readers.
    pub readers: bool,
    /// Who asks with a time limit doesn't wait for good.
    pub timed: bool,
    /// The threads aren't there at the same time, when they do so.
    pub apart: bool,
    /// Who asks as a wait for a condition ends had the lock when that began.
    pub waits: bool,
}
