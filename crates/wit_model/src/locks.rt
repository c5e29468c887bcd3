//! Classes, modes, numbers, types and locks: the plain words of locking(9).

ghost use Rattle.std.specs.Prelude.{◌≡◌};
ghost use Rattle.wit_model.specs.Rules.Types.{is_spin, is_shareable};
ghost use Rattle.wit_model.specs.Rules.History.{is_on, is_off};
ghost use Rattle.wit_model.specs.Rules.Verdict.{is_exclusive};

use crate::calls::NewLock;
use crate::names::Name;

/// The class of a lock, as in locking(9). All classes but `SpinMutex` are of the sleep kind.
#[derive(Clone, Copy, Debug, PartialEq, Eq, Hash)]
pub enum Class {
    /// A default mutex of mutex(9).
    SleepMutex,
    /// A spin mutex of mutex(9): its holder must not sleep.
    SpinMutex,
    /// A reader/writer lock of rwlock(9).
    Rw,
    /// A shared/exclusive lock of sx(9): its holder may sleep.
    Sx,
}

impl Class {
    /// Whether it is of the spin kind; every other class is of the sleep kind.
    pub fn is_spin(self) -> bool
        ensures { result ≡ is_spin self }
    {
        match self {
            Class::SpinMutex => true,
            _ => false,
        }
    }

    /// Whether its locks may be held shared: mutexes never are.
    pub fn is_shareable(self) -> bool
        ensures { result ≡ is_shareable self }
    {
        match self {
            Class::Rw | Class::Sx => true,
            _ => false,
        }
    }
}

/// How a lock is held or asked for.
#[derive(Clone, Copy, Debug, PartialEq, Eq, Hash)]
pub enum Mode {
    /// With other readers.
    Shared,
    /// Alone.
    Exclusive,
}

impl Mode {
    /// Whether its holder is alone.
    pub fn is_exclusive(self) -> bool
        ensures { result ≡ is_exclusive self }
    {
        match self {
            Mode::Exclusive => true,
            Mode::Shared => false,
        }
    }
}

/// How much the verifier does: the sysctl `debug.witness.watch` of witness(4).
#[derive(Clone, Copy, Debug, PartialEq, Eq, Hash)]
pub enum Watch {
    /// No acquisition is recorded any more, for good; what is held may be released.
    Off,
    /// Held locks are kept, and no request is checked.
    Quiet,
    /// Everything.
    On,
}

impl Watch {
    /// Whether everything is watched.
    pub fn is_on(self) -> bool
        ensures { result ≡ is_on self }
    {
        match self {
            Watch::On => true,
            _ => false,
        }
    }

    /// Whether nothing is watched any more.
    pub fn is_off(self) -> bool
        ensures { result ≡ is_off self }
    {
        match self {
            Watch::Off => true,
            _ => false,
        }
    }
}

/// The number of a lock type, from 1 in order of enrolment: 1,023 at most.
#[derive(Clone, Copy, Debug, PartialEq, Eq, Hash)]
pub struct TypeNo(pub u16);

/// The number of a lock, from 1 in order of `init`: 65,536 at most. A number is never used again.
#[derive(Clone, Copy, Debug, PartialEq, Eq, Hash)]
pub struct LockNo(pub u32);

/// The number of a seat, which is a thread of the watched program, from 1: 256 at most.
#[derive(Clone, Copy, Debug, PartialEq, Eq, Hash)]
pub struct SeatNo(pub u16);

/// The number of a source file, from 1 in order of first appearance: 65,535 at most.
#[derive(Clone, Copy, Debug, PartialEq, Eq, Hash)]
pub struct FileNo(pub u16);

/// A place in the watched program.
#[derive(Clone, Copy, Debug, PartialEq, Eq, Hash)]
pub struct Site {
    /// The source file.
    pub file: FileNo,
    /// The line, any number: the verifier only tells it.
    pub line: u32,
}

/// Where an order between two types comes from.
#[derive(Clone, Copy, Debug, PartialEq, Eq, Hash)]
pub enum Origin {
    /// A static list.
    Listed,
    /// A call that defined it.
    Defined,
    /// The request that taught it: where its lock was asked for.
    At(Site),
}

/// A held lock, as its seat's chain keeps it.
#[derive(Clone, Copy, Debug, PartialEq, Eq, Hash)]
pub struct Instance {
    /// The held lock.
    pub lock: LockNo,
    /// How it is held: as first acquired, or as last turned.
    pub mode: Mode,
    /// Whether it must not be released: set by `norelease`, cleared by `releaseok`.
    pub norelease: bool,
    /// How often it was acquired again: 0 for a lock acquired once, 65,535 at most.
    pub count: u16,
    /// The latest acquisition.
    pub site: Site,
}

/// A lock type: locks of one type share one order, and have one class.
#[derive(Debug, Drop)]
pub struct LockType {
    /// The name under which its locks share an order.
    pub name: Name,
    /// The class of all its locks.
    pub class: Class,
}

/// A lock that was made.
#[derive(Debug, Drop)]
pub struct Lock {
    /// Its type, which stays.
    pub type_no: TypeNo,
    /// What it was made as.
    pub made: NewLock,
}
