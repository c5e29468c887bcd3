//! Which of a seat's held locks a request is compared with.

/// Which of the locks that a seat holds, of the kind of the one that it asks for, a request learns
/// its orders behind, and is held to be a second one of their type. (Orders that a held lock
/// breaks are looked for among all of them in either profile, as in subr_witness.c.)
#[derive(Clone, Copy, Debug, PartialEq, Eq, Hash)]
pub enum Profile {
    /// The last one alone, as `witness_checkorder` of subr_witness.c has it.
    Plain,
    /// Every one of them. So orders are learnt behind locks that were acquired by a try too.
    AllHeld,
}
