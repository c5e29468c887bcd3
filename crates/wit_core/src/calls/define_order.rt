//! `define_order`: one lock's type is to be before another's.

ghost use Rattle.std.specs.Prelude.{◌≡◌, true, Ok, IsOk};
ghost use Rattle.wit_model.specs.declared.calls.Call.TheVariants.{DefineOrder};
ghost use Rattle.wit_model.specs.Rules.Defining.{define};
ghost use Rattle.wit_model.specs.Rules.Preparing.{IsPrepared, Prepares};
ghost use Rattle.wit_model.specs.Rules.State.{state_of, is_live};
ghost use Rattle.wit_model.specs.Rules.Step.{AnswersOrFails, answer_of, is_logged, logged};
ghost use Rattle.wit_core.specs.Attempts.{Attempts};

use crate::calls::attempt::Attempt;
use crate::defining::defined;
use crate::log::is_logged;
use crate::ready::{Plan, Ready};
use crate::verifier::Verifier;
use wit_check::define;
use wit_model::{Call, Entry, Fault, LockNo, Reply, SeatNo};

impl Verifier {
    /// Defines an order without an acquisition, as `witness_defineorder` does: the first lock's
    /// type is before the second one's from now on. It is `Adopted`; or `Known` where it is a
    /// direct order already; or, where nothing is watched, `Ignored`, which is not logged.
    ///
    /// # Errors
    /// In this order: `UnknownSeat`; `UnknownLock` for either lock; `Pending` where the seat has a
    /// request; and where something is watched: `KindMismatch` where one lock is a spin lock and
    /// the other isn't; `SameType` where both are of one type; `WrongOrder` where the second one's
    /// type is before the first one's; `LogFull`; `OutOfMemory`, but not where it is prepared.
    pub fn define_order(
        &mut self,
        seat: SeatNo,
        first: LockNo,
        second: LockNo,
    ) -> Result<Reply, Fault>
        ensures answer { AnswersOrFails self.old seat.0 (DefineOrder first second) result self.new }
        ensures prepared { IsPrepared self.old seat.0 (DefineOrder first second) → IsOk result }
    {
        if !self.is_ready(seat, Plan::Define(first, second)) {
            let reply = self.ready_define(seat, first, second)?;
            if !is_logged(&reply) {
                return Ok(reply);
            }
        }
        Ok(self.enter_define(seat, first, second))
    }

    // Defines an order that is known, and prepares one that is not.
    pub(crate) fn attempt_define(
        &mut self,
        seat: SeatNo,
        first: LockNo,
        second: LockNo,
    ) -> Result<Attempt, Fault>
        ensures { Attempts self.old seat.0 (DefineOrder first second) result self.new }
    {
        let reply = self.ready_define(seat, first, second)?;
        if let Reply::Adopted(..) = &reply {
            return Ok(Attempt::Teaches(Call::DefineOrder(first, second), reply));
        }
        if !is_logged(&reply) {
            return Ok(Attempt::Made(reply));
        }
        Ok(Attempt::Made(self.enter_define(seat, first, second)))
    }

    // Prepares a definition.
    pub(crate) fn ready_define(
        &mut self,
        seat: SeatNo,
        first: LockNo,
        second: LockNo,
    ) -> Result<Reply, Fault>
        ensures { Prepares self.old seat.0 (DefineOrder first second) result self.new }
    {
        let reply = self.answer_define(seat, first, second)?;
        if !is_logged(&reply) {
            return Ok(reply);
        }
        self.make_ready(seat, Plan::Define(first, second), reply)
    }

    fn answer_define(&self, seat: SeatNo, first: LockNo, second: LockNo) -> Result<Reply, Fault>
        ensures { result ≡ answer_of self.now seat.0 (DefineOrder first second) }
    {
        self.about_lock(seat, first)?;
        self.before_naming(seat, second)?;
        if self.watch().is_off() {
            return Ok(Reply::Ignored);
        }
        let reply = self.definition(first, second)?;
        if !self.has_room(1) {
            return Err(Fault::LogFull);
        }
        Ok(reply)
    }

    // The answer by the types of two live locks.
    fn definition(&self, first: LockNo, second: LockNo) -> Result<Reply, Fault>
        requires first { is_live (state_of self.now) first.0 ≡ true }
        requires second { is_live (state_of self.now) second.0 ≡ true }
        ensures { result ≡ define (state_of self.now).known first.0 second.0 }
    {
        let known = &self.known;
        let parent = known.locks().type_of(first);
        let child = known.locks().type_of(second);
        let verdict = define(known.names(), known.orders().matrix(), parent, child);
        defined(verdict)
    }

    // Enters a definition that is prepared, and what its reply tells. It takes no memory.
    fn enter_define(&mut self, seat: SeatNo, first: LockNo, second: LockNo) -> Reply
        requires { IsPrepared self.old seat.0 (DefineOrder first second) }
        ensures answer { answer_of self.old seat.0 (DefineOrder first second) ≡ Ok result }
        ensures logged { is_logged result ≡ true }
        ensures entered { self.new ≡ logged self.old seat.0 (DefineOrder first second) result }
    {
        let Ready { reply, kept, .. } = self.ready.take().unwrap();
        self.known.define(&reply);
        let entry = Entry {
            seat,
            call: Call::DefineOrder(first, second),
            reply: kept,
        };
        self.log.push(entry, 0);
        reply
    }
}
