//! What a seat holds.

use wit_model::chunks::Lists;
use wit_model::{SeatNo, TypeNo};

/// What a seat holds, and the types of the locks.
#[derive(Clone, Copy)]
pub struct Chains<'a, L: Lists> {
    /// The lists of held locks: two for each seat, a kind each.
    pub lists: &'a L,
    /// The seat.
    pub seat: SeatNo,
    /// The type of each lock that was made, by the lock's number from 1.
    pub lock_types: &'a [TypeNo],
}
