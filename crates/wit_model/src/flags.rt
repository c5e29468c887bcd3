//! The flags of a lock, of a request, of an assertion and of a warning.

ghost use Rattle.std.specs.Prelude.{⊤, [], ◌∷◌, codes};

use bitflags::{Flag, Flags, bitflag_items};

/// What a lock allows: `MTX_RECURSE` and `MTX_DUPOK` of mutex(9) and their kin.
#[derive(Clone, Copy, Debug, PartialEq, Eq, Hash)]
pub struct LockFlags(pub u8);

/// What a request allows: `LOP_NEWORDER` and `LOP_DUPOK` of witness(4)'s interface, and `FRESH`.
#[derive(Clone, Copy, Debug, PartialEq, Eq, Hash)]
pub struct OpFlags(pub u8);

/// What is asserted of a lock: `LA_UNLOCKED` to `LA_NOTRECURSED` of `witness_assert` (witness(4)).
#[derive(Clone, Copy, Debug, PartialEq, Eq, Hash)]
pub struct LockAssert(pub u8);

/// What a warning leaves out: `WARN_GIANTOK` and `WARN_SLEEPOK` of `witness_warn` (witness(4)).
#[derive(Clone, Copy, Debug, PartialEq, Eq, Hash)]
pub struct WarnFlags(pub u8);

bitflag_items! {
    impl LockFlags: u8 {
        /// The lock may be acquired again by its holder.
        const RECURSABLE = 1;
        /// A second lock of its type may be acquired without a report.
        const DUPOK = 2;
    }

    impl OpFlags: u8 {
        /// A new order may be learnt from this request.
        const NEWORDER = 1;
        /// A second lock of the type may be acquired without a report.
        const DUPOK = 2;
        /// The caller doesn't hold the lock.
        const FRESH = 4;
    }

    impl LockAssert: u8 {
        /// The seat doesn't hold the lock.
        const UNLOCKED = 1;
        /// It holds the lock.
        const LOCKED = 2;
        /// It holds the lock shared.
        const SLOCKED = 4;
        /// It holds the lock exclusively.
        const XLOCKED = 8;
        /// It acquired the lock more than once.
        const RECURSED = 16;
        /// It acquired the lock once.
        const NOTRECURSED = 32;
    }

    impl WarnFlags: u8 {
        /// Giant may be held.
        const GIANTOK = 1;
        /// Sleepable locks may be held.
        const SLEEPOK = 2;
    }
}

impl Flags for LockFlags {
    type Bits = u8;

    ghost exact = { ⊤ };

    ghost table = { (codes "RECURSABLE", 1) ∷ (codes "DUPOK", 2) ∷ [] };

    ghost set_of = { λ f. f.0 };

    fn flags<'a>() -> &'a [Flag<LockFlags>] {
        LockFlags::FLAGS
    }

    fn bits(&self) -> u8 {
        self.0
    }

    fn from_bits_retain(bits: u8) -> LockFlags {
        LockFlags(bits)
    }
}

impl Flags for OpFlags {
    type Bits = u8;

    ghost exact = { ⊤ };

    ghost table = { (codes "NEWORDER", 1) ∷ (codes "DUPOK", 2) ∷ (codes "FRESH", 4) ∷ [] };

    ghost set_of = { λ f. f.0 };

    fn flags<'a>() -> &'a [Flag<OpFlags>] {
        OpFlags::FLAGS
    }

    fn bits(&self) -> u8 {
        self.0
    }

    fn from_bits_retain(bits: u8) -> OpFlags {
        OpFlags(bits)
    }
}

impl Flags for LockAssert {
    type Bits = u8;

    ghost exact = { ⊤ };

    ghost table = { (codes "UNLOCKED", 1) ∷ (codes "LOCKED", 2) ∷ (codes "SLOCKED", 4)
        ∷ (codes "XLOCKED", 8) ∷ (codes "RECURSED", 16) ∷ (codes "NOTRECURSED", 32) ∷ [] };

    ghost set_of = { λ f. f.0 };

    fn flags<'a>() -> &'a [Flag<LockAssert>] {
        LockAssert::FLAGS
    }

    fn bits(&self) -> u8 {
        self.0
    }

    fn from_bits_retain(bits: u8) -> LockAssert {
        LockAssert(bits)
    }
}

impl Flags for WarnFlags {
    type Bits = u8;

    ghost exact = { ⊤ };

    ghost table = { (codes "GIANTOK", 1) ∷ (codes "SLEEPOK", 2) ∷ [] };

    ghost set_of = { λ f. f.0 };

    fn flags<'a>() -> &'a [Flag<WarnFlags>] {
        WarnFlags::FLAGS
    }

    fn bits(&self) -> u8 {
        self.0
    }

    fn from_bits_retain(bits: u8) -> WarnFlags {
        WarnFlags(bits)
    }
}
