//! `assert_lock`: a seat asserts how it holds a lock, or that it doesn't.

ghost use Rattle.std.specs.Prelude.{◌≡◌, true};
ghost use Rattle.wit_model.specs.Rules.Assertions.{assertion, step_assert};
ghost use Rattle.wit_model.specs.Rules.State.{state_of, is_seat};
ghost use Rattle.wit_model.specs.Rules.Step.{held_by};

use crate::verifier::Verifier;
use wit_model::{AssertAnswer, Fault, LockAssert, LockNo, SeatNo};

impl Verifier {
    /// Asserts how a seat holds a lock, or that it doesn't: `witness_assert` of witness(4), whose
    /// panics are answers here. Where not everything is watched it is `Skipped`. It isn't logged,
    /// and takes no memory.
    ///
    /// # Errors
    /// In this order: `UnknownSeat`; `UnknownLock`.
    pub fn assert_lock(
        &self,
        seat: SeatNo,
        lock: LockNo,
        flags: LockAssert,
    ) -> Result<AssertAnswer, Fault>
        ensures { result ≡ step_assert (state_of self.now) seat.0 lock.0 flags }
    {
        if !self.is_seat(seat) {
            return Err(Fault::UnknownSeat);
        }
        if !self.is_live(lock) {
            return Err(Fault::UnknownLock);
        }
        Ok(self.assertion(seat, lock, flags))
    }

    // What an assertion of a seat comes to.
    fn assertion(&self, seat: SeatNo, lock: LockNo, flags: LockAssert) -> AssertAnswer
        requires { is_seat (state_of self.now) seat.0 ≡ true }
        ensures { result ≡ assertion (state_of self.now).watch flags
            (held_by (state_of self.now) seat.0 lock.0) }
    {
        let spin = self.class_of_lock(lock).is_spin();
        self.seats.assert_is(seat, spin, lock, self.watch, flags)
    }
}
