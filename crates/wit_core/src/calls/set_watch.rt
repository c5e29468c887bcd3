//! `set_watch`: how much is watched.

ghost use Rattle.std.specs.Prelude.{◌≡◌, Ok, Err, OnOk, OnErr, IfErr};
ghost use Rattle.wit_model.specs.declared.calls.Call.TheVariants.{SetWatch};
ghost use Rattle.wit_model.specs.declared.calls.Reply.TheVariants.{Done};
ghost use Rattle.wit_model.specs.Rules.Step.{AnswersOrFails, answer_of, logged};

use crate::ready::let_go;
use crate::verifier::Verifier;
use std::alloc::AllocError;
use wit_model::{Call, Entry, Fault, Reply, SeatNo, Watch};

impl Verifier {
    /// Sets how much is watched, as the sysctl `debug.witness.watch` does: at `On` everything; at
    /// `Quiet` no request is checked or teaches an order, though one may be defined, and what is
    /// held is recorded still; at `Off` no acquisition is recorded any more, for good. What the
    /// seats hold stays, its releases are taken, and the level that stands may be set again.
    ///
    /// # Errors
    /// In this order: `UnknownSeat`; `Pending` where the seat has a request; `WatchOff` for another
    /// level where nothing is watched any more; `LogFull`; `OutOfMemory`.
    pub fn set_watch(&mut self, seat: SeatNo, watch: Watch) -> Result<Reply, Fault>
        ensures { AnswersOrFails self.old seat.0 (SetWatch watch) result self.new }
    {
        self.answer_watch(seat, watch)?;
        self.enter_watch(seat, watch)?;
        Ok(Reply::Done)
    }

    fn answer_watch(&self, seat: SeatNo, watch: Watch) -> Result<(), Fault>
        ensures ok { OnOk result (answer_of self.now seat.0 (SetWatch watch) ≡ Ok Done) }
        ensures err { IfErr result (λ e. answer_of self.now seat.0 (SetWatch watch) ≡ Err e) }
    {
        self.about_seat(seat)?;
        if self.watch().is_off() && !watch.is_off() {
            return Err(Fault::WatchOff);
        }
        if !self.has_room(1) {
            return Err(Fault::LogFull);
        }
        Ok(())
    }

    fn enter_watch(&mut self, seat: SeatNo, watch: Watch) -> Result<(), AllocError>
        requires { answer_of self.old seat.0 (SetWatch watch) ≡ Ok Done }
        ensures ok { OnOk result (self.new ≡ logged self.old seat.0 (SetWatch watch) Done) }
        ensures err { OnErr result (self.new ≡ self.old) }
    {
        self.log.reserve(1)?;
        self.watch = watch;
        let entry = Entry {
            seat,
            call: Call::SetWatch(watch),
            reply: Reply::Done,
        };
        let_go(&mut self.ready);
        self.log.push(entry, 0);
        Ok(())
    }
}
