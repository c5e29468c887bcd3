//! `note`: a requested lock was acquired.

ghost use Rattle.std.specs.Prelude.{◌≡◌, Some, Ok};
ghost use Rattle.wit_model.specs.declared.calls.Call.TheVariants.{Note};
ghost use Rattle.wit_model.specs.Rules.State.{state_of, seat_at};
ghost use Rattle.wit_model.specs.Rules.Step.{Answers, answer_of, logged, recorded_reply};
ghost use Rattle.wit_core.specs.Acquiring.{reply_to};

use crate::acquiring::{Acquisition, acquire};
use crate::ready::let_go;
use crate::verifier::Verifier;
use wit_model::{Call, Entry, Fault, Instance, LockNo, Reply, Request, SeatNo};

impl Verifier {
    /// Tells that the lock asked for was acquired: WITNESS's `lock`. It is `Recorded`; or
    /// `Unrecorded` where nothing is watched any more; or `Exhausted`, a report that comes once,
    /// where no chunk is free for it: it isn't recorded then, and nothing is watched from now on.
    /// It takes no memory.
    ///
    /// # Errors
    /// In this order: `UnknownSeat`; `UnknownLock`; `NotRequested` where the seat has no request
    /// for the lock.
    pub fn note(&mut self, seat: SeatNo, lock: LockNo) -> Result<Reply, Fault>
        ensures { Answers self.old seat.0 (Note lock) result self.new }
    {
        let request = self.before_answering(seat, lock)?;
        Ok(self.enter_note(seat, lock, request).reply())
    }

    fn enter_note(&mut self, seat: SeatNo, lock: LockNo, request: Request) -> Acquisition
        requires accepted { answer_of self.old seat.0 (Note lock)
            ≡ Ok (recorded_reply (state_of self.old) seat.0 lock.0) }
        requires request { (seat_at (state_of self.old) seat.0).pending ≡ Some request }
        ensures result { reply_to result ≡ recorded_reply (state_of self.old) seat.0 lock.0 }
        ensures entered { self.new ≡ logged self.old seat.0 (Note lock) (reply_to result) }
    {
        let spin = self.class_of_lock(lock).is_spin();
        let taken = Instance {
            lock,
            mode: request.mode,
            norelease: false,
            count: 0,
            site: request.site,
        };
        let acquisition = acquire(&mut self.seats, &mut self.watch, seat, spin, taken);
        self.seats.clear(seat);
        let entry = Entry {
            seat,
            call: Call::Note(lock),
            reply: acquisition.reply(),
        };
        let_go(&mut self.ready);
        self.log.push_owed(entry, 1 - acquisition.owed());
        acquisition
    }
}
