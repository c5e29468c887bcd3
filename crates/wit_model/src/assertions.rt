//! What an assertion about a lock comes to.

/// The answer to an assertion: the panics of `witness_assert` (subr_witness.c), each as an answer.
#[derive(Clone, Copy, Debug, PartialEq, Eq, Hash)]
pub enum AssertAnswer {
    /// It is so.
    Holds,
    /// Not everything is watched, so nothing was looked at.
    Skipped,
    /// No assertion has these flags.
    Invalid,
    /// The seat holds a lock that it must not hold.
    IsLocked,
    /// It doesn't hold the lock.
    IsNotLocked,
    /// It holds the lock, but shared.
    IsNotExclusive,
    /// It holds the lock, but exclusively.
    IsExclusive,
    /// It acquired the lock once.
    IsNotRecursed,
    /// It acquired the lock more than once.
    IsRecursed,
}
