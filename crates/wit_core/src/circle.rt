//! Circles of seats that wait for one another, by what is recorded.

ghost use Rattle.std.specs.Prelude.{◌≡◌, true, [], None, IfOk, IfErr};
ghost use Rattle.wit_model.specs.declared.faults.Fault.TheVariants.{OutOfMemory};
ghost use Rattle.wit_model.specs.Rules.Circles.{waits_for, Waits, TellsCircle, circle_numbers};
ghost use Rattle.wit_model.specs.Rules.Clean.{is_clean};
ghost use Rattle.wit_model.specs.Rules.Numbers.{IsNumber};
ghost use Rattle.wit_model.specs.Rules.State.{state_of};
ghost use Rattle.wit_waiting.specs.Searching.{waiting, all_waiting, table_of};

use crate::verifier::Verifier;
use std::alloc::AllocError;
use wit_model::{Fault, SeatNo};
use wit_waiting::circle_in;

impl Verifier {
    /// Seats that wait for one another in a circle, by what is recorded: each has asked for a lock
    /// that it doesn't hold and that the next one holds, where one of the two modes is exclusive;
    /// and the last waits so for the first, which is the least of them. `None` exactly where there
    /// is no such circle, and so while the log is clean (nothing was reported or tried, everything
    /// was watched, each check might teach its order, and nothing is excepted).
    ///
    /// # Errors
    /// `OutOfMemory` alone.
    pub fn wait_circle(&self) -> Result<Option<Vec<SeatNo>>, Fault>
        ensures ok { IfOk result (λ c. TellsCircle (Waits (state_of self.now)) (circle_numbers c)) }
        ensures clean { self.now.start.blessed ≡ []
            → is_clean self.now.start.profile self.now.history ≡ true
            → IfOk result (λ c. c ≡ None) }
        ensures err { IfErr result (λ e. e ≡ OutOfMemory) }
    {
        // Called for its clause that there are never more than 256 seats.
        let _seats = self.seats();
        let rows = self.all_waiting()?;
        Ok(circle_in(self.alloc, &rows)?)
    }

    // For each seat, which seats wait for it.
    fn all_waiting(&self) -> Result<Vec<Vec<bool>>, AllocError>
        ensures { IfOk result (λ rows. table_of rows.items
            ≡ all_waiting (waits_for (state_of self.now)) self.now.start.sizes.seats) }
    {
        let mut rows = Vec::new(self.alloc);
        for place in 0..self.seats() {
            rows.push(self.waiting(SeatNo(place + 1))?)?;
        }
        Ok(rows)
    }

    // Which seats wait for this one.
    fn waiting(&self, other: SeatNo) -> Result<Vec<bool>, AllocError>
        requires { IsNumber self.now.start.sizes.seats other.0 }
        ensures { IfOk result (λ row. row.items
            ≡ waiting (waits_for (state_of self.now)) self.now.start.sizes.seats other.0) }
    {
        let mut row = Vec::new(self.alloc);
        for place in 0..self.seats() {
            row.push(self.waits(SeatNo(place + 1), other))?;
        }
        Ok(row)
    }

    // Whether a seat waits for another one by what is recorded.
    fn waits(&self, seat: SeatNo, other: SeatNo) -> bool
        requires seat { IsNumber self.now.start.sizes.seats seat.0 }
        requires other { IsNumber self.now.start.sizes.seats other.0 }
        ensures { result ≡ waits_for (state_of self.now) seat.0 other.0 }
    {
        let Some(request) = self.request(seat) else {
            return false;
        };
        if self.held(seat, request.lock).is_some() || other.0 == seat.0 {
            return false;
        }
        match self.held(other, request.lock) {
            Some(held) => held.mode.is_exclusive() || request.mode.is_exclusive(),
            None => false,
        }
    }
}
