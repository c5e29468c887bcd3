//! The faults of the verifier's calls.

ghost use Rattle.std.specs.Prelude.{◌≡◌, Some};
ghost use Rattle.wit_model.specs.Rules.Faults.{fault_text};
ghost use Rattle.wit_model.specs.declared.faults.Fault.TheVariants.{OutOfMemory};

use std::alloc::AllocError;
use std::fmt;

/// Why a call was refused. A refused call changes nothing.
///
/// Where FreeBSD's WITNESS panics or runs out of types, the verifier answers one of these. Its text
/// is its number and its name, as `F6 SleepUnderSpin`.
#[derive(Clone, Copy, Debug, PartialEq, Eq, Hash)]
pub enum Fault {
    /// The seat's number is 0 or over the number of seats.
    UnknownSeat,
    /// The lock was never made, or is destroyed.
    UnknownLock,
    /// The type is known with another class, or a static list gives it two.
    ClassMismatch,
    /// The type is new, and no number is left.
    TypesFull,
    /// No lock number is left.
    LocksFull,
    /// A lock of the sleep kind is asked for while a spin lock is held.
    SleepUnderSpin,
    /// Asked for shared, and held exclusive.
    SharedOfExclusive,
    /// Asked for exclusive, and held shared.
    ExclusiveOfShared,
    /// Held already, and not to be acquired again.
    Recursed,
    /// The recursion count is at its greatest value, 65,535.
    RecursionTooDeep,
    /// The seat doesn't hold the lock.
    NotLocked,
    /// Held exclusive, and released as shared.
    SharedUnlock,
    /// Held shared, and released as exclusive.
    ExclusiveUnlock,
    /// Let go while it is marked as not to be released.
    ForbiddenUnlock,
    /// The class can't be upgraded or downgraded.
    NotUpgradable,
    /// Upgraded, and held exclusive.
    UpgradeOfExclusive,
    /// Upgraded, and acquired more than once.
    UpgradeRecursed,
    /// Downgraded, and held shared.
    DowngradeOfShared,
    /// Downgraded, and acquired more than once.
    DowngradeRecursed,
    /// The second type is before the first.
    WrongOrder,
    /// Both types are the same.
    SameType,
    /// One type is of the sleep kind and one of the spin kind.
    KindMismatch,
    /// Some seat holds the lock or asks for it.
    Busy,
    /// The seat has a request that is neither noted nor given up.
    Pending,
    /// The seat has no pending request for the lock.
    NotRequested,
    /// The log has too little room.
    LogFull,
    /// A growth was refused.
    OutOfMemory,
    /// The lock itself refused. No call of the verifier answers it.
    GateRefused,
    /// The text is no name, or no file name.
    BadName,
    /// Watching ended for good.
    WatchOff,
    /// The class is never held shared.
    ModeNotAllowed,
    /// No file number is left.
    FilesFull,
    /// The site's file was never named.
    UnknownFile,
    /// The lock itself doesn't admit the step: it can't be had so, or the seat hasn't the only
    /// share that it turns exclusive, or no exclusive one to turn shared. No call of the verifier
    /// answers it, nor the next one: a world of threads does.
    RawNotFree,
    /// The step or call isn't one that the seat may do next, or it frees a lock of which it has no
    /// share.
    StepOrder,
}

impl Fault {
    /// Its number and its name.
    pub fn text(self) -> &'static str
        ensures { result.now ≡ fault_text self }
    {
        match self {
            Fault::UnknownSeat => "F1 UnknownSeat",
            Fault::UnknownLock => "F2 UnknownLock",
            Fault::ClassMismatch => "F3 ClassMismatch",
            Fault::TypesFull => "F4 TypesFull",
            Fault::LocksFull => "F5 LocksFull",
            Fault::SleepUnderSpin => "F6 SleepUnderSpin",
            Fault::SharedOfExclusive => "F7 SharedOfExclusive",
            Fault::ExclusiveOfShared => "F8 ExclusiveOfShared",
            Fault::Recursed => "F9 Recursed",
            Fault::RecursionTooDeep => "F10 RecursionTooDeep",
            Fault::NotLocked => "F11 NotLocked",
            Fault::SharedUnlock => "F12 SharedUnlock",
            Fault::ExclusiveUnlock => "F13 ExclusiveUnlock",
            Fault::ForbiddenUnlock => "F14 ForbiddenUnlock",
            Fault::NotUpgradable => "F15 NotUpgradable",
            Fault::UpgradeOfExclusive => "F16 UpgradeOfExclusive",
            Fault::UpgradeRecursed => "F17 UpgradeRecursed",
            Fault::DowngradeOfShared => "F18 DowngradeOfShared",
            Fault::DowngradeRecursed => "F19 DowngradeRecursed",
            Fault::WrongOrder => "F20 WrongOrder",
            Fault::SameType => "F21 SameType",
            Fault::KindMismatch => "F22 KindMismatch",
            Fault::Busy => "F23 Busy",
            Fault::Pending => "F24 Pending",
            Fault::NotRequested => "F25 NotRequested",
            Fault::LogFull => "F26 LogFull",
            Fault::OutOfMemory => "F27 OutOfMemory",
            Fault::GateRefused => "F28 GateRefused",
            Fault::BadName => "F29 BadName",
            Fault::WatchOff => "F30 WatchOff",
            Fault::ModeNotAllowed => "F31 ModeNotAllowed",
            Fault::FilesFull => "F32 FilesFull",
            Fault::UnknownFile => "F33 UnknownFile",
            Fault::RawNotFree => "F35 RawNotFree",
            Fault::StepOrder => "F36 StepOrder",
        }
    }
}

impl fmt::Display for Fault {
    ghost output = { λ f. Some (fault_text f) };

    fn fmt<W: fmt::Write>(&self, f: &mut fmt::Formatter<W>) -> fmt::Result {
        f.write_str(self.text())
    }
}

impl From<AllocError> for Fault {
    ghost from_gives = { λ _ fault. fault ≡ OutOfMemory };

    fn from(_error: AllocError) -> Fault {
        Fault::OutOfMemory
    }
}
