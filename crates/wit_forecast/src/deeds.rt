//! What the lines of a trace do to the locks themselves.

use wit_model::{LockNo, Mode, SeatNo};

/// What a seat does by a line.
#[derive(Clone, Copy, Debug, PartialEq, Eq)]
pub enum Act {
    /// It makes a lock.
    Makes,
    /// It asks for a lock.
    Asks(LockNo, Mode),
    /// It gets a share of the lock that it asked for.
    Gets(LockNo, Mode),
    /// It gets a share by a try.
    Tries(LockNo, Mode),
    /// It gives a share back.
    Frees(LockNo),
    /// Its share has this mode from now on.
    Turns(LockNo, Mode),
    /// It does nothing to a lock itself.
    Other,
}

/// A line after the prelude.
#[derive(Clone, Copy, Debug, PartialEq, Eq)]
pub struct Deed {
    /// Whose it is.
    pub seat: SeatNo,
    /// What is done by it.
    pub act: Act,
    /// The greatest number of a lock that it makes or names; 0 where it names none.
    pub greatest: u32,
}

impl Deed {
    /// Whether it makes a lock.
    pub fn is_making(&self) -> bool {
        self.act == Act::Makes
    }
}
