//! The shared verifier's calls that are not logged: of files, and what a verifier is asked as it
//! stands.

ghost use Rattle.std.specs.Prelude.{◌≡◌, []};
ghost use Rattle.wit_model.specs.Rules.Assertions.{step_assert};
ghost use Rattle.wit_model.specs.Rules.Files.{NamesFile};
ghost use Rattle.wit_model.specs.Rules.State.{Story, state_of};
ghost use Rattle.wit_model.specs.Rules.Warnings.{step_warn};
ghost use Rattle.wit_seats.specs.Seats.{Told};
ghost use Rattle.wit_shared.specs.Calls.{TellsWaits, given_by};

use crate::shared::Shared;
use std::sync::{MutexGuard, Wait};
use wit_core::Verifier;
use wit_model::{AssertAnswer, Fault, FileNo, LockAssert, LockNo, SeatNo, WarnFlags};
use wit_seats::{Room, Seat};

/// What is asked of a verifier as it stands at one moment, as the text of a report.
pub trait Look {
    /// What it comes to.
    type Out;

    // What is known of that, of the verifier that was looked at.
    ghost done: { Self → Self.Out → Story → Type 0 };

    /// Looks. Where the verifier is shared, every other call waits meanwhile: a look that made one
    /// would wait for itself.
    fn look(self, verifier: &Verifier) -> Self::Out
        ensures { done self result verifier.now };
}

impl<J: Room> Shared<J> {
    /// Names a source file: `Verifier::file`. The seat then has it, and its number and name stand.
    ///
    /// # Errors
    /// Those of `Verifier::file`.
    pub fn file<R: Wait>(&self, rt: &R, seat: &mut Seat<J>, name: &str) -> Result<FileNo, Fault>
        ensures { Told J.start (given_by result name.now)
            (λ before after. NamesFile before name.now result after) seat.old seat.new }
    {
        let mut desk = self.desk.lock(rt);
        let answer = desk.file(seat, name);
        let _ = MutexGuard::unlock(desk);
        answer
    }

    /// Asserts how a lock is held: `Verifier::assert_lock`. It isn't logged, and takes no memory.
    ///
    /// # Errors
    /// Those of `Verifier::assert_lock`.
    pub fn assert_lock<R: Wait>(
        &self,
        rt: &R,
        seat: &mut Seat<J>,
        lock: LockNo,
        flags: LockAssert,
    ) -> Result<AssertAnswer, Fault>
        ensures { Told J.start [] (λ before after.
            (result ≡ step_assert (state_of before) seat.old.seat lock.0 flags)
            × (after ≡ before)) seat.old seat.new }
    {
        let mut desk = self.desk.lock(rt);
        let answer = desk.assert_lock(seat, lock, flags);
        let _ = MutexGuard::unlock(desk);
        answer
    }

    /// Counts held locks: `Verifier::warn`. It isn't logged, and takes no memory.
    ///
    /// # Errors
    /// Those of `Verifier::warn`.
    pub fn warn<R: Wait>(
        &self,
        rt: &R,
        seat: &mut Seat<J>,
        named: Option<LockNo>,
        flags: WarnFlags,
    ) -> Result<usize, Fault>
        ensures { Told J.start [] (λ before after.
            (result ≡ step_warn (state_of before) seat.old.seat named flags)
            × (after ≡ before)) seat.old seat.new }
    {
        let mut desk = self.desk.lock(rt);
        let answer = desk.warn(seat, named, flags);
        let _ = MutexGuard::unlock(desk);
        answer
    }

    /// Looks at the verifier while no call changes it. Nothing is logged.
    pub fn look<R: Wait, L: Look>(&self, rt: &R, seat: &mut Seat<J>, wanted: L) -> L::Out
        ensures { Told J.start [] (λ before after. (L.done wanted result before)
            × (after ≡ before)) seat.old seat.new }
    {
        let mut desk = self.desk.lock(rt);
        let out = desk.look(seat, wanted);
        let _ = MutexGuard::unlock(desk);
        out
    }

    /// Seats that wait for one another in a circle, by what is recorded: `Verifier::wait_circle`.
    /// It isn't logged.
    ///
    /// # Errors
    /// Those of `Verifier::wait_circle`.
    pub fn wait_circle<R: Wait>(
        &self,
        rt: &R,
        seat: &mut Seat<J>,
    ) -> Result<Option<Vec<SeatNo>>, Fault>
        ensures { Told J.start [] (λ before after.
            (TellsWaits before result) × (after ≡ before)) seat.old seat.new }
    {
        self.look(rt, seat, Waits)
    }
}

// Whether seats wait for one another.
#[derive(Drop)]
struct Waits;

impl Look for Waits {
    type Out = Result<Option<Vec<SeatNo>>, Fault>;

    ghost done = { λ look result s. TellsWaits s result };

    fn look(self, verifier: &Verifier) -> Result<Option<Vec<SeatNo>>, Fault> {
        verifier.wait_circle()
    }
}
