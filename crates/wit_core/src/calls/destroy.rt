//! `destroy`: a lock is no more.

ghost use Rattle.std.specs.Prelude.{◌≡◌, Ok, Err, OnOk, OnErr, IfErr};
ghost use Rattle.wit_model.specs.declared.calls.Call.TheVariants.{Destroy};
ghost use Rattle.wit_model.specs.declared.calls.Reply.TheVariants.{Done};
ghost use Rattle.wit_model.specs.Rules.Step.{AnswersOrFails, answer_of, logged};

use crate::ready::let_go;
use crate::verifier::Verifier;
use std::alloc::AllocError;
use wit_model::{Call, Entry, Fault, LockNo, Reply, SeatNo};

impl Verifier {
    /// Tells that a lock is destroyed, as `lock_destroy` does: no call may name it any more. Its
    /// number isn't used again; its name and its type stay for readers and texts, and so do the
    /// orders of its type.
    ///
    /// # Errors
    /// In this order: `UnknownSeat`; `UnknownLock`; `Pending` where the seat has a request; `Busy`
    /// where a seat, whichever it is, holds the lock or asks for it; `LogFull`; `OutOfMemory`.
    pub fn destroy(&mut self, seat: SeatNo, lock: LockNo) -> Result<Reply, Fault>
        ensures { AnswersOrFails self.old seat.0 (Destroy lock) result self.new }
    {
        self.answer_destroy(seat, lock)?;
        self.enter_destroy(seat, lock)?;
        Ok(Reply::Done)
    }

    fn answer_destroy(&self, seat: SeatNo, lock: LockNo) -> Result<(), Fault>
        ensures ok { OnOk result (answer_of self.now seat.0 (Destroy lock) ≡ Ok Done) }
        ensures err { IfErr result (λ e. answer_of self.now seat.0 (Destroy lock) ≡ Err e) }
    {
        self.before_naming(seat, lock)?;
        if self.is_used(lock) {
            return Err(Fault::Busy);
        }
        if !self.has_room(1) {
            return Err(Fault::LogFull);
        }
        Ok(())
    }

    fn enter_destroy(&mut self, seat: SeatNo, lock: LockNo) -> Result<(), AllocError>
        requires { answer_of self.old seat.0 (Destroy lock) ≡ Ok Done }
        ensures ok { OnOk result (self.new ≡ logged self.old seat.0 (Destroy lock) Done) }
        ensures err { OnErr result (self.new ≡ self.old) }
    {
        self.log.reserve(1)?;
        self.known.destroy(lock);
        let entry = Entry {
            seat,
            call: Call::Destroy(lock),
            reply: Reply::Done,
        };
        let_go(&mut self.ready);
        self.log.push(entry, 0);
        Ok(())
    }
}
