//! How a seat holds a lock, once it does.

ghost use Rattle.std.specs.Prelude.{◌≡◌, true, false};
ghost use Rattle.wit_model.specs.Rules.Numbers.{IsGiven};
ghost use Rattle.wit_held.specs.Chains.{IsOnce, in_mode};
ghost use Rattle.wit_held.specs.Marks.{marked};
ghost use Rattle.wit_waiting.specs.Seats.{seat_in, locks_in, with_seat};
ghost use Rattle.wit_waiting.specs.Seats.{changed};

use crate::seats::Seats;
use wit_held::{norelease, releaseok, set_mode};
use wit_model::chunks::list_of;
use wit_model::{LockNo, Mode, SeatNo};

/// What changes how a seat holds a lock: its place, its count and its site stay.
impl Seats {
    /// A lock of this kind is held in another mode: `wit_held::set_mode` in its list.
    pub fn turn(&mut self, seat: SeatNo, spin: bool, lock: LockNo, mode: Mode)
        requires seat { IsGiven self.old.seats seat.0 }
        requires once { IsOnce lock.0 (locks_in spin (seat_in self.old seat.0)) }
        ensures { self.new ≡ with_seat seat.0 (changed spin lock.0 (in_mode mode)) self.old }
    {
        self.unheld = None;
        set_mode(&mut self.lists, list_of(seat, spin), lock, mode);
    }

    /// A lock of this kind must not be released: `wit_held::norelease` in its list.
    pub fn forbid(&mut self, seat: SeatNo, spin: bool, lock: LockNo)
        requires seat { IsGiven self.old.seats seat.0 }
        requires once { IsOnce lock.0 (locks_in spin (seat_in self.old seat.0)) }
        ensures { self.new ≡ with_seat seat.0 (changed spin lock.0 (marked true)) self.old }
    {
        self.unheld = None;
        norelease(&mut self.lists, list_of(seat, spin), lock);
    }

    /// A lock of this kind may be released: `wit_held::releaseok` in its list.
    pub fn allow(&mut self, seat: SeatNo, spin: bool, lock: LockNo)
        requires seat { IsGiven self.old.seats seat.0 }
        requires once { IsOnce lock.0 (locks_in spin (seat_in self.old seat.0)) }
        ensures { self.new ≡ with_seat seat.0 (changed spin lock.0 (marked false)) self.old }
    {
        self.unheld = None;
        releaseok(&mut self.lists, list_of(seat, spin), lock);
    }
}
