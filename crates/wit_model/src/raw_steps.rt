//! Steps of the locks themselves, of which the verifier isn't told.

use crate::locks::Mode;

/// What a seat does to a lock itself, beside its calls: what `mtx_lock` of mutex(9), `sx_slock` of
/// sx(9) and the like do between WITNESS's calls.
#[derive(Clone, Copy, Debug, PartialEq, Eq, Hash)]
pub enum RawStep {
    /// It gets a share of the lock that it asked for, in the mode in which it asked.
    Take,
    /// It gets a share by a try, in this mode.
    TryTake(Mode),
    /// It gives a share back.
    Free,
    /// Its only share becomes exclusive.
    Up,
    /// Its exclusive share becomes shared.
    Down,
}
