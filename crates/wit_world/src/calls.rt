//! The calls of the verifier.

ghost use Rattle.std.specs.Prelude.{◌≡◌, ◌<◌, ◌-◌, ◌^◌, ◌++◌, ◌∷◌, [], nat_lt, true, length, Err};
ghost use Rattle.std.specs.Prelude.{OnOk, IfErr, if◌then◌else◌};
ghost use Rattle.wit_model.specs.declared.calls.Call.TheVariants.{Check, Note, Unlock};
ghost use Rattle.wit_model.specs.Rules.History.{num};
ghost use Rattle.wit_model.specs.Rules.State.{state_of, is_seat};
ghost use Rattle.wit_model.specs.Rules.Step.{TakesNoMemory, answer_of, is_logged};
ghost use Rattle.wit_model.specs.World.Scenes.{nobodys, shares_of, names_live, may_call, answer_in};
ghost use Rattle.wit_model.specs.World.Stages.{stage_called};
ghost use Rattle.wit_world.specs.Stages.{stage_of};
ghost use Rattle.wit_world.specs.Steps.{AnswersIn, AnswersSurelyIn, makes_lock, holds_asked};

use crate::raw::Raw;
use crate::stages::{Stage, either, stage_passed};
use crate::world::World;
use wit_model::{Call, Fault, LockNo, Mode, Reply, Request, SeatNo};

impl World {
    /// A seat makes a call of the verifier: `Verifier::call`.
    ///
    /// # Errors
    /// In this order: `UnknownSeat`; `UnknownLock`; `StepOrder` where the call isn't the next one
    /// of a sequence; then the call's own, which is `OutOfMemory` only in place of a reply that the
    /// log would keep, and never of a note, a request given up or an unlock. Nothing is changed
    /// then.
    ///
    /// It is inlined, so that a frequent call that is known pays for no other.
    #[inline(always)]
    pub fn call(&mut self, seat: SeatNo, call: Call) -> Result<Reply, Fault>
        ensures answer { AnswersIn self.old seat.0 call result self.new }
        ensures surely { TakesNoMemory call
            → AnswersSurelyIn self.old seat.0 call result self.new }
    {
        match call {
            Call::Check(request) => self.ask(seat, request),
            Call::Note(lock) => self.note(seat, lock),
            Call::Unlock(lock, mode) => self.unlock(seat, lock, mode),
            call => self.any_call(seat, call),
        }
    }

    #[inline(never)]
    fn ask(&mut self, seat: SeatNo, request: Request) -> Result<Reply, Fault>
        ensures { AnswersIn self.old seat.0 (Check request) result self.new }
    {
        self.make_call(seat, Call::Check(request))
    }

    #[inline(never)]
    fn note(&mut self, seat: SeatNo, lock: LockNo) -> Result<Reply, Fault>
        ensures { AnswersSurelyIn self.old seat.0 (Note lock) result self.new }
    {
        self.make_call(seat, Call::Note(lock))
    }

    #[inline(never)]
    fn unlock(&mut self, seat: SeatNo, lock: LockNo, mode: Mode) -> Result<Reply, Fault>
        ensures { AnswersSurelyIn self.old seat.0 (Unlock lock mode) result self.new }
    {
        self.make_call(seat, Call::Unlock(lock, mode))
    }

    #[inline(never)]
    fn any_call(&mut self, seat: SeatNo, call: Call) -> Result<Reply, Fault>
        ensures answer { AnswersIn self.old seat.0 call result self.new }
        ensures surely { TakesNoMemory call
            → AnswersSurelyIn self.old seat.0 call result self.new }
    {
        self.make_call(seat, call)
    }

    // It is inlined into each of these, which so know which call it is.
    #[inline(always)]
    fn make_call(&mut self, seat: SeatNo, call: Call) -> Result<Reply, Fault>
        ensures answer { AnswersIn self.old seat.0 call result self.new }
        ensures surely { TakesNoMemory call
            → AnswersSurelyIn self.old seat.0 call result self.new }
    {
        self.before_call(seat, &call)?;
        let logged = self.stage_called(seat, &call);
        let passed = stage_passed(&call);
        let makes = makes_lock(&call);
        // Called for its clause that the log is short.
        let _entries = self.entries();
        let reply = self.verifier.call(seat, call)?;
        let kept = is_logged(&reply);
        make(&mut self.raw, makes && kept);
        self.stages[seat.0 as usize - 1] = either(kept, logged, passed);
        Ok(reply)
    }

    // The faults of a call that come before its own.
    #[inline(always)]
    fn before_call(&self, seat: SeatNo, call: &Call) -> Result<(), Fault>
        ensures ok { OnOk result (answer_in self.now seat.0 call.now
            ≡ answer_of self.now.story seat.0 call.now) }
        ensures seat { OnOk result (is_seat (state_of self.now.story) seat.0 ≡ true) }
        ensures err { IfErr result (λ f. answer_in self.now seat.0 call.now ≡ Err f) }
    {
        if !self.is_seat(seat) {
            return Err(Fault::UnknownSeat);
        }
        if !self.names_live(call) {
            return Err(Fault::UnknownLock);
        }
        if !self.may_call(seat, call) {
            return Err(Fault::StepOrder);
        }
        Ok(())
    }

    // Whether the locks that a call names are live.
    #[inline(always)]
    fn names_live(&self, call: &Call) -> bool
        ensures { result ≡ names_live (state_of self.now.story) call.now }
    {
        let verifier = &self.verifier;
        match call {
            Call::Init(_) => true,
            Call::SetWatch(_) => true,
            Call::Check(request) => verifier.is_live(request.lock),
            Call::Note(lock) => verifier.is_live(*lock),
            Call::NoteTry(lock, _, _) => verifier.is_live(*lock),
            Call::GiveUp(lock) => verifier.is_live(*lock),
            Call::Unlock(lock, _) => verifier.is_live(*lock),
            Call::Destroy(lock) => verifier.is_live(*lock),
            Call::Upgrade(lock) => verifier.is_live(*lock),
            Call::Downgrade(lock) => verifier.is_live(*lock),
            Call::NoRelease(lock) => verifier.is_live(*lock),
            Call::ReleaseOk(lock) => verifier.is_live(*lock),
            Call::DefineOrder(first, second) => verifier.is_live(*first)
                && verifier.is_live(*second),
        }
    }

    // Whether a call may come next.
    #[inline(always)]
    fn may_call(&self, seat: SeatNo, call: &Call) -> bool
        requires { is_seat (state_of self.now.story) seat.0 ≡ true }
        ensures { result ≡ may_call self.now seat.0 call.now }
    {
        let stage = self.stage(seat);
        stage.may_call(call, self.holds_asked(seat, stage))
    }

    // Whether a seat that stands so holds by the record the lock that it asked for.
    #[inline(always)]
    fn holds_asked(&self, seat: SeatNo, stage: Stage) -> bool
        requires { is_seat (state_of self.now.story) seat.0 ≡ true }
        ensures { result ≡ holds_asked self.now seat.0 (stage_of stage) }
    {
        match stage {
            Stage::Asked(request) => self.is_held(seat, request.lock),
            _ => false,
        }
    }

    // Where a seat stands after a call that is logged.
    #[inline(always)]
    fn stage_called(&self, seat: SeatNo, call: &Call) -> Stage
        requires { is_seat (state_of self.now.story) seat.0 ≡ true }
        ensures { stage_of result ≡ stage_called
            (λ l. nat_lt (shares_of self.now.raw seat.0 l) (num seat.0 l self.now.story.history))
            call.now }
    {
        match call {
            Call::Check(request) => Stage::Asked(*request),
            Call::Unlock(lock, _) => Stage::Forgot(*lock, self.has_fewer(seat, *lock)),
            Call::Downgrade(lock) => Stage::Lowered(*lock, false),
            _ => Stage::Over,
        }
    }

    // Whether a seat has fewer shares of a lock than acquisitions of it are recorded.
    fn has_fewer(&self, seat: SeatNo, lock: LockNo) -> bool
        requires { is_seat (state_of self.now.story) seat.0 ≡ true }
        ensures { result ≡ nat_lt (shares_of self.now.raw seat.0 lock.0)
            (num seat.0 lock.0 self.now.story.history) }
    {
        match self.verifier.recorded(seat, lock) {
            Some(again) => self.raw.shares(seat, lock) < u64::from(again) + 1,
            None => false,
        }
    }
}

// Makes a lock, or doesn't.
#[inline(always)]
fn make(raw: &mut Raw, makes: bool)
    requires { length raw.old < 2 ^ 64 - 1 }
    ensures { raw.new ≡ (if makes then raw.old ++ nobodys ∷ [] else raw.old) }
{
    if makes {
        raw.made();
    }
}

#[inline(always)]
fn makes_lock(call: &Call) -> bool
    ensures { result ≡ makes_lock call.now }
{
    matches!(call, Call::Init(_))
}

#[inline(always)]
fn is_logged(reply: &Reply) -> bool
    ensures { result ≡ is_logged reply.now }
{
    !matches!(reply, Reply::Ignored)
}
