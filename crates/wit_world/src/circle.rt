//! Circles of seats that wait for one another's shares.

ghost use Rattle.std.specs.Prelude.{◌≡◌, IfOk, IfErr};
ghost use Rattle.wit_model.specs.declared.faults.Fault.TheVariants.{OutOfMemory};
ghost use Rattle.wit_model.specs.Rules.Circles.{TellsCircle, circle_numbers};
ghost use Rattle.wit_model.specs.Rules.Numbers.{IsNumber};
ghost use Rattle.wit_model.specs.World.Shown.{waits_in, WaitsIn};
ghost use Rattle.wit_waiting.specs.Searching.{waiting, all_waiting, table_of};

use crate::stages::Stage;
use crate::world::World;
use std::alloc::AllocError;
use wit_core::circle_in;
use wit_model::{Fault, SeatNo};

impl World {
    /// Seats that wait for one another in a circle, by shares and not by what is recorded of them:
    /// each asked last for a lock that it doesn't hold by the record and of which the next one has
    /// a share, where that share or the request is exclusive; and the last waits so for the first,
    /// which is the least of them. `None` exactly where there is no such circle.
    ///
    /// # Errors
    /// `OutOfMemory` alone.
    pub fn wait_circle(&self) -> Result<Option<Vec<SeatNo>>, Fault>
        ensures ok { IfOk result (λ c. TellsCircle (WaitsIn self.now) (circle_numbers c)) }
        ensures err { IfErr result (λ e. e ≡ OutOfMemory) }
    {
        // Called for its clause that there are never more than 256 seats.
        let _seats = self.verifier.seats();
        let rows = self.all_waiting()?;
        Ok(circle_in(self.alloc, &rows)?)
    }

    // For each seat, which seats wait for it.
    fn all_waiting(&self) -> Result<Vec<Vec<bool>>, AllocError>
        ensures { IfOk result (λ rows. table_of rows.items
            ≡ all_waiting (waits_in self.now) self.now.story.start.sizes.seats) }
    {
        let mut rows = Vec::new(self.alloc);
        for place in 0..self.verifier.seats() {
            rows.push(self.waiting(SeatNo(place + 1))?)?;
        }
        Ok(rows)
    }

    // Which seats wait for this one.
    fn waiting(&self, other: SeatNo) -> Result<Vec<bool>, AllocError>
        requires { IsNumber self.now.story.start.sizes.seats other.0 }
        ensures { IfOk result (λ row. row.items
            ≡ waiting (waits_in self.now) self.now.story.start.sizes.seats other.0) }
    {
        let mut row = Vec::new(self.alloc);
        for place in 0..self.verifier.seats() {
            row.push(self.waits(SeatNo(place + 1), other))?;
        }
        Ok(row)
    }

    // Whether a seat waits for another one's share.
    fn waits(&self, seat: SeatNo, other: SeatNo) -> bool
        requires { IsNumber self.now.story.start.sizes.seats seat.0 }
        ensures { result ≡ waits_in self.now seat.0 other.0 }
    {
        let Stage::Asked(request) = self.stage(seat) else {
            return false;
        };
        if self.is_held(seat, request.lock) || other.0 == seat.0 {
            return false;
        }
        if self.raw.shares(other, request.lock) == 0 {
            return false;
        }
        self.raw.is_exclusive(request.lock) || request.mode.is_exclusive()
    }
}
