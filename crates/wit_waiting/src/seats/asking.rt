//! What a seat asks for. Nothing here takes memory.

ghost use Rattle.std.specs.Prelude.{◌≡◌, find, IfSome, None, Some};
ghost use Rattle.wit_model.specs.Rules.Numbers.{IsGiven};
ghost use Rattle.wit_model.specs.Rules.Verdict.{is_of};
ghost use Rattle.wit_waiting.specs.Seats.{seat_in, locks_in, with_seat, asking};

use crate::seats::Seats;
use wit_model::chunks::list_of;
use wit_model::{LockNo, Request, SeatNo};

impl Seats {
    /// A seat asks for a lock.
    pub fn ask(&mut self, seat: SeatNo, request: Request)
        requires { IsGiven self.old.seats seat.0 }
        ensures { self.new ≡ with_seat seat.0 (asking (Some request)) self.old }
    {
        self.requests[seat.0 as usize - 1] = Some(request);
    }

    /// A seat asks for a lock. Where it is known to hold no such lock of this kind, that is kept.
    pub fn ask_for(&mut self, seat: SeatNo, request: Request, new_in: Option<bool>)
        requires seat { IsGiven self.old.seats seat.0 }
        requires new { IfSome new_in (λ spin.
            find (is_of request.lock.0) (locks_in spin (seat_in self.old seat.0)) ≡ None) }
        ensures { self.new ≡ with_seat seat.0 (asking (Some request)) self.old }
    {
        if let Some(spin) = new_in {
            self.keep_unheld(seat, spin, request.lock);
        }
        self.ask(seat, request);
    }

    // Keeps that a seat doesn't hold a lock of this kind.
    fn keep_unheld(&mut self, seat: SeatNo, spin: bool, lock: LockNo)
        requires seat { IsGiven self.old.seats seat.0 }
        requires new { find (is_of lock.0) (locks_in spin (seat_in self.old seat.0)) ≡ None }
        ensures { self.new ≡ self.old }
    {
        let unheld = &mut self.unheld;
        *unheld = Some((list_of(seat, spin), lock));
    }

    /// A seat asks for nothing any more.
    pub fn clear(&mut self, seat: SeatNo)
        requires { IsGiven self.old.seats seat.0 }
        ensures { self.new ≡ with_seat seat.0 (asking None) self.old }
    {
        self.requests[seat.0 as usize - 1] = None;
    }
}
