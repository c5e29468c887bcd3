//! `call`: a logged call as a value.

ghost use Rattle.std.specs.Prelude.{IsOk};
ghost use Rattle.wit_model.specs.declared.calls.Call.TheVariants.{Init};
ghost use Rattle.wit_model.specs.Rules.Preparing.{IsPreparable, IsPrepared};
ghost use Rattle.wit_model.specs.Rules.Step.{Answers, AnswersOrFails, TakesNoMemory};

use crate::verifier::Verifier;
use wit_model::{Boxed, Call, Fault, NewLock, Reply, SeatNo};

impl Verifier {
    /// Makes a call, whichever it is: each stands as a method too, which says what it is for.
    ///
    /// It is inlined, so that a frequent call that is known pays for no other.
    ///
    /// # Errors
    /// Those of the call's method; not `OutOfMemory` where the call is prepared, nor of a note, a
    /// request given up or an unlock, which take no memory.
    #[inline(always)]
    pub fn call(&mut self, seat: SeatNo, call: Call) -> Result<Reply, Fault>
        ensures answer { AnswersOrFails self.old seat.0 call result self.new }
        ensures surely { TakesNoMemory call → Answers self.old seat.0 call result self.new }
        ensures prepared { IsPreparable call → IsPrepared self.old seat.0 call → IsOk result }
    {
        match call {
            Call::Check(request) => self.ask(seat, request),
            Call::Note(asked) => self.note(seat, asked),
            Call::Unlock(held, mode) => self.unlock(seat, held, mode),
            call => self.any_call(seat, call),
        }
    }

    // Makes a call of any kind.
    #[inline(never)]
    fn any_call(&mut self, seat: SeatNo, call: Call) -> Result<Reply, Fault>
        ensures answer { AnswersOrFails self.old seat.0 call result self.new }
        ensures surely { TakesNoMemory call → Answers self.old seat.0 call result self.new }
        ensures prepared { IsPreparable call → IsPrepared self.old seat.0 call → IsOk result }
    {
        match call {
            Call::Init(lock) => self.call_init(seat, lock),
            Call::Check(request) => self.ask(seat, request),
            Call::Note(lock) => self.note(seat, lock),
            Call::NoteTry(lock, mode, site) => self.note_try(seat, lock, mode, site),
            Call::GiveUp(lock) => self.give_up(seat, lock),
            Call::Unlock(lock, mode) => self.unlock(seat, lock, mode),
            Call::SetWatch(watch) => self.set_watch(seat, watch),
            Call::Destroy(lock) => self.destroy(seat, lock),
            Call::Upgrade(lock) => self.upgrade(seat, lock),
            Call::Downgrade(lock) => self.downgrade(seat, lock),
            Call::NoRelease(lock) => self.norelease(seat, lock),
            Call::ReleaseOk(lock) => self.releaseok(seat, lock),
            Call::DefineOrder(first, second) => self.define_order(seat, first, second),
        }
    }

    // Makes a lock. What it is to be goes to the log in the box in which it came.
    fn call_init(&mut self, seat: SeatNo, lock: Boxed<NewLock>) -> Result<Reply, Fault>
        ensures { AnswersOrFails self.old seat.0 (Init lock) result self.new }
    {
        match self.make_boxed(seat, lock) {
            Ok(number) => Ok(Reply::Made(number)),
            Err(fault) => Err(fault),
        }
    }
}
