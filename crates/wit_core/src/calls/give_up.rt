//! `give_up`: a requested lock wasn't acquired.

ghost use Rattle.std.specs.Prelude.{◌≡◌, Ok};
ghost use Rattle.wit_model.specs.declared.calls.Call.TheVariants.{GiveUp};
ghost use Rattle.wit_model.specs.declared.calls.Reply.TheVariants.{Done};
ghost use Rattle.wit_model.specs.Rules.Step.{Answers, answer_of, logged};

use crate::ready::let_go;
use crate::verifier::Verifier;
use wit_model::{Call, Entry, Fault, LockNo, Reply, SeatNo};

impl Verifier {
    /// Tells that the lock asked for wasn't acquired, as where a wait was broken off: the seat asks
    /// for nothing any more. What its check taught stays. It takes no memory.
    ///
    /// # Errors
    /// In this order: `UnknownSeat`; `UnknownLock`; `NotRequested` where the seat has no request
    /// for the lock.
    pub fn give_up(&mut self, seat: SeatNo, lock: LockNo) -> Result<Reply, Fault>
        ensures { Answers self.old seat.0 (GiveUp lock) result self.new }
    {
        let _request = self.before_answering(seat, lock)?;
        self.enter_give_up(seat, lock);
        Ok(Reply::Done)
    }

    fn enter_give_up(&mut self, seat: SeatNo, lock: LockNo)
        requires { answer_of self.old seat.0 (GiveUp lock) ≡ Ok Done }
        ensures { self.new ≡ logged self.old seat.0 (GiveUp lock) Done }
    {
        self.seats.clear(seat);
        let entry = Entry {
            seat,
            call: Call::GiveUp(lock),
            reply: Reply::Done,
        };
        let_go(&mut self.ready);
        self.log.push_owed(entry, 1);
    }
}
