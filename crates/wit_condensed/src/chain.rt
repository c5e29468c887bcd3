//! Chains: the locks that a thread holds, oldest first, and the one that it asks for.

ghost use Rattle.std.specs.Prelude.{◌≡◌};
ghost use Rattle.wit_condensed.specs.Chains.{has_lock, are_types};

use crate::row::TYPES;

/// No chain is longer.
pub const MOST_LINKS: usize = 512;

/// A lock that a thread holds.
#[repr(C)]
#[derive(Clone, Copy)]
pub struct Link {
    /// Its number.
    pub lock: u32,
    /// The number of its type, below `TYPES`.
    pub type_no: u16,
    /// The thread got it by a try.
    pub tried: bool,
    /// The stream has it among what the thread holds.
    pub written: bool,
}

/// A lock that a thread asks for.
#[derive(Clone, Copy)]
pub struct Asked {
    /// Its number.
    pub lock: u32,
    /// The number of its type, below `TYPES`.
    pub type_no: u16,
}

/// Whether a chain has the lock with this number.
pub fn has_lock(links: &[Link], lock: u32) -> bool
    ensures { result ≡ has_lock links.now lock }
{
    links.iter().any(|link| link.lock == lock)
}

/// Whether each of its types is the number of a type.
pub fn are_types(links: &[Link]) -> bool
    ensures { result ≡ are_types links.now }
{
    links.iter().all(|link| link.type_no < TYPES)
}
