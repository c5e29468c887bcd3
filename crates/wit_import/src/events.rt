//! What happens to a lock.

use crate::words::Word;
use wit_model::{Class, FileName, Name};

/// In which way a thread acquires a lock.
#[derive(Clone, Copy, Debug, PartialEq, Eq)]
pub enum Sharing {
    /// `x`: nobody else has the lock meanwhile.
    Exclusive,
    /// `s`: others may read too.
    Shared,
    /// `r`: others may read too, and it may ask for the lock again while it reads.
    Recursive,
}

/// A thread, the lock that it asks for or acquires, and where.
#[derive(Debug, Drop)]
pub struct Acquisition {
    pub thread: Word,
    pub lock: Word,
    /// The class of the lock's type.
    pub class: Class,
    /// The name of its type.
    pub name: Name,
    pub sharing: Sharing,
    pub file: FileName,
    pub line: u32,
}

/// A thread, and the lock that it releases.
#[derive(Debug, Drop)]
pub struct Release {
    pub thread: Word,
    pub lock: Word,
    /// A name for the lock, where its word may be one.
    pub name: Option<Name>,
}

/// The type of a lock.
#[derive(Debug, Drop)]
pub struct LockType {
    pub class: Class,
    pub name: Name,
}

/// What a line tells.
#[derive(Debug, Drop)]
pub enum Event {
    /// `req`: a thread asks for a lock.
    Asks(Acquisition),
    /// `acq`: it asks for a lock and has it from then on. Whether it asked before makes no
    /// difference.
    Gets(Acquisition),
    /// `try`: it has a lock from then on, for which it didn't wait.
    Tries(Acquisition),
    /// `rel`: it releases a lock.
    Releases(Release),
    /// A lock of this type is released that nobody holds. No line of a script tells so.
    Twice(LockType),
    /// `Lost`: events are missing, so nothing is known of what threads hold.
    Loses,
}
