//! What a line tells.

ghost use Rattle.std.specs.Prelude.{◌≡◌};
ghost use Rattle.wit_traced.specs.Calls.{same_call, same_deed, same_kind, same_masked, same_reading};

use crate::contexts::{Context, Masked, Preemption};

/// What a lock is, as far as a line tells.
#[derive(Clone, Copy, Debug, PartialEq, Eq)]
pub enum Kind {
    /// Who waits for it spins.
    Spins,
    /// So too, and it has readers and writers.
    SpinsForReaders,
    /// Who waits for it sleeps.
    Sleeps,
    /// Something that lockdep treats as a lock, as a timer or a count of sequences.
    Map,
}

/// In which way somebody reads.
#[derive(Clone, Copy, Debug, PartialEq, Eq)]
pub enum Reading {
    /// It doesn't: nobody else has the lock meanwhile.
    Writes,
    /// Others may read too.
    Reads,
    /// Others may read too, and it may read again meanwhile, whoever waits.
    Again,
}

/// What a probed function does.
#[derive(Clone, Copy, Debug, PartialEq, Eq)]
pub enum Deed {
    /// It acquires the lock.
    Acquires,
    /// It acquires the lock, or a signal ends its wait: it gives 0 where it has the lock.
    MayEnd,
    /// It tries to: it gives another number than 0 where it has the lock.
    Tries,
    /// It releases the lock.
    Releases,
}

/// A probed function.
#[derive(Clone, Copy, Debug, PartialEq, Eq)]
pub struct Call {
    pub deed: Deed,
    pub kind: Kind,
    pub reading: Reading,
    /// What it masks before it acquires the lock.
    pub masks: Masked,
}

impl Call {
    /// Whether that is one of the function.
    pub fn is(&self, other: Call) -> bool
        ensures { result ≡ same_call self.now other }
    {
        same_deed(self.deed, other.deed)
            && same_kind(self.kind, other.kind)
            && same_reading(self.reading, other.reading)
            && same_masked(self.masks, other.masks)
    }
}

fn same_deed(one: Deed, other: Deed) -> bool
    ensures { result ≡ same_deed one other }
{
    one == other
}

fn same_kind(one: Kind, other: Kind) -> bool
    ensures { result ≡ same_kind one other }
{
    one == other
}

fn same_reading(one: Reading, other: Reading) -> bool
    ensures { result ≡ same_reading one other }
{
    one == other
}

fn same_masked(one: Masked, other: Masked) -> bool
    ensures { result ≡ same_masked one other }
{
    one == other
}

/// What lockdep is told of an acquisition.
#[derive(Clone, Copy, Debug)]
pub struct Acquired<'a> {
    pub lock: u64,
    /// What tells its class from others, together with its subclass and its name.
    pub key: &'a [u8],
    pub subclass: &'a [u8],
    pub name: &'a [u8],
    pub kind: Kind,
    pub reading: Reading,
    /// It isn't waited for.
    pub tried: bool,
    /// A lock that is held over it keeps those of its class in sequence.
    pub nested: bool,
    pub place: &'a [u8],
}

/// What the pthread wrapper of LTTng tells of a mutex.
#[derive(Clone, Copy, Debug, PartialEq, Eq)]
pub enum MutexDeed {
    /// It is asked for.
    Asks,
    /// It is acquired, and was asked for.
    Gets,
    /// It is acquired without waiting.
    Tries,
    /// It is released.
    Releases,
}

/// What is done with a lock.
#[derive(Clone, Copy, Debug)]
pub enum Action<'a> {
    /// A probed function is entered, with this lock and from this place.
    Enters(Call, u64, &'a [u8]),
    /// It returns: whether it gives another number than 0, and to which place.
    Returns(Call, bool, &'a [u8]),
    /// lockdep is told of an acquisition.
    Acquires(Acquired<'a>),
    /// It is told of one that it passes over: of RCU, or of a lock that it doesn't check.
    PassesOver(u64),
    /// It is told of a release, at this place.
    Releases(u64, &'a [u8]),
    /// A program does this with a mutex, at this place.
    Does(MutexDeed, u64, &'a [u8]),
}

/// What a line tells.
#[derive(Clone, Copy, Debug)]
pub enum Told<'a> {
    /// Events are missing.
    Lost,
    /// Who does what, which interrupts can't come meanwhile, and whether another task may.
    Does(Context, Masked, Preemption, Action<'a>),
    /// Something else that the tracer writes of its own: a remark.
    Remark,
}
