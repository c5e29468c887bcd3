//! `norelease` and `releaseok`: whether a held lock may be released.

ghost use Rattle.std.specs.Prelude.{◌≡◌, Ok, IfOk, OnOk, OnErr, true};
ghost use Rattle.wit_model.specs.declared.calls.Call.TheVariants.{NoRelease, ReleaseOk};
ghost use Rattle.wit_model.specs.declared.calls.Reply.TheVariants.{Done};
ghost use Rattle.wit_model.specs.Rules.State.{state_of};
ghost use Rattle.wit_model.specs.Rules.Step.{AnswersOrFails, answer_of, is_logged, logged};
ghost use Rattle.wit_model.specs.Rules.Turning.{step_mark};

use crate::calls::turn::unless_held;
use crate::log::is_logged;
use crate::ready::let_go;
use crate::verifier::Verifier;
use std::alloc::AllocError;
use wit_model::{Call, Entry, Fault, LockNo, Reply, SeatNo};

impl Verifier {
    /// Tells that a held lock must not be released, until `releaseok`: `witness_norelease` of
    /// subr_witness.c. Where not everything is watched it is `Ignored`, which is not logged.
    ///
    /// # Errors
    /// In this order: `UnknownSeat`; `UnknownLock`; `Pending` where the seat has a request;
    /// `NotLocked` where everything is watched; `LogFull`; `OutOfMemory`.
    pub fn norelease(&mut self, seat: SeatNo, lock: LockNo) -> Result<Reply, Fault>
        ensures { AnswersOrFails self.old seat.0 (NoRelease lock) result self.new }
    {
        let reply = self.answer_mark(seat, lock)?;
        if is_logged(&reply) {
            self.enter_norelease(seat, lock)?;
        }
        Ok(reply)
    }

    /// Tells that a held lock may be released again: `witness_releaseok` of subr_witness.c. Where
    /// not everything is watched it is `Ignored`, which is not logged.
    ///
    /// # Errors
    /// Those of `norelease`.
    pub fn releaseok(&mut self, seat: SeatNo, lock: LockNo) -> Result<Reply, Fault>
        ensures { AnswersOrFails self.old seat.0 (ReleaseOk lock) result self.new }
    {
        let reply = self.answer_mark(seat, lock)?;
        if is_logged(&reply) {
            self.enter_releaseok(seat, lock)?;
        }
        Ok(reply)
    }

    // The answer to either call.
    fn answer_mark(&self, seat: SeatNo, lock: LockNo) -> Result<Reply, Fault>
        ensures answer { result ≡ step_mark (state_of self.now) seat.0 lock.0 }
        ensures logged { IfOk result (λ r. is_logged r ≡ true → r ≡ Done) }
    {
        self.before_naming(seat, lock)?;
        if self.held(seat, lock).is_none() {
            return unless_held(self.watch());
        }
        if !self.watch().is_on() {
            return Ok(Reply::Ignored);
        }
        if !self.has_room(1) {
            return Err(Fault::LogFull);
        }
        Ok(Reply::Done)
    }

    fn enter_norelease(&mut self, seat: SeatNo, lock: LockNo) -> Result<(), AllocError>
        requires { answer_of self.old seat.0 (NoRelease lock) ≡ Ok Done }
        ensures ok { OnOk result (self.new ≡ logged self.old seat.0 (NoRelease lock) Done) }
        ensures err { OnErr result (self.new ≡ self.old) }
    {
        let spin = self.class_of_lock(lock).is_spin();
        self.log.reserve(1)?;
        self.seats.forbid(seat, spin, lock);
        let entry = Entry {
            seat,
            call: Call::NoRelease(lock),
            reply: Reply::Done,
        };
        let_go(&mut self.ready);
        self.log.push(entry, 0);
        Ok(())
    }

    fn enter_releaseok(&mut self, seat: SeatNo, lock: LockNo) -> Result<(), AllocError>
        requires { answer_of self.old seat.0 (ReleaseOk lock) ≡ Ok Done }
        ensures ok { OnOk result (self.new ≡ logged self.old seat.0 (ReleaseOk lock) Done) }
        ensures err { OnErr result (self.new ≡ self.old) }
    {
        let spin = self.class_of_lock(lock).is_spin();
        self.log.reserve(1)?;
        self.seats.allow(seat, spin, lock);
        let entry = Entry {
            seat,
            call: Call::ReleaseOk(lock),
            reply: Reply::Done,
        };
        let_go(&mut self.ready);
        self.log.push(entry, 0);
        Ok(())
    }
}
