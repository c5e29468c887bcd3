//! Where locks were asked for.

use wit_model::SeatNo;

/// So many places are told apart at most.
pub const MOST_SPOTS: u64 = 4_294_967_295;

/// Where, and by whom, a lock was asked for or tried.
#[derive(Clone, Copy, Debug, PartialEq, Eq, Hash)]
pub struct Spot {
    /// The number of the line that says so.
    pub line: u64,
    /// The seat.
    pub seat: SeatNo,
    /// The thread that had it, as the kernel counts; 0 where that isn't known.
    pub thread: u32,
    /// The number of the place in the recording; 0 where nothing is known of it.
    pub place: u32,
    /// The number of the stack in the recording, 0 for none.
    pub stack: u32,
}
