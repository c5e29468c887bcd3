//! `unlock`: a held lock is released.

ghost use Rattle.std.specs.Prelude.{◌≡◌, true};
ghost use Rattle.wit_model.specs.declared.calls.Call.TheVariants.{Unlock};
ghost use Rattle.wit_model.specs.Rules.State.{state_of, is_seat};
ghost use Rattle.wit_model.specs.Rules.Step.{Answers, before_naming};
ghost use Rattle.wit_core.specs.Replies.{Admits};

use crate::ready::let_go;
use crate::verifier::Verifier;
use wit_model::{Call, Entry, Fault, LockNo, Mode, Reply, SeatNo};

impl Verifier {
    /// Tells that a lock held in this mode is released: WITNESS's `unlock`. It is `Unlocked`; or,
    /// where not everything is watched and the lock isn't held by the record, `Ignored`, which is
    /// not logged. It takes no memory.
    ///
    /// # Errors
    /// In this order: `UnknownSeat`; `UnknownLock`; `Pending` where the seat has a request; and
    /// where everything is watched: `NotLocked`; `SharedUnlock` and `ExclusiveUnlock` where the
    /// lock is held in the other mode; `ForbiddenUnlock` where it must not be released and was
    /// acquired once.
    pub fn unlock(&mut self, seat: SeatNo, lock: LockNo, mode: Mode) -> Result<Reply, Fault>
        ensures { Answers self.old seat.0 (Unlock lock mode) result self.new }
    {
        self.before_naming(seat, lock)?;
        self.release(seat, lock, mode)
    }

    // Records a release that nothing before it refuses, or passes it over. The lock is looked for
    // once.
    fn release(&mut self, seat: SeatNo, lock: LockNo, mode: Mode) -> Result<Reply, Fault>
        requires seat { is_seat (state_of self.old) seat.0 ≡ true }
        requires admitted { Admits (before_naming (state_of self.old) seat.0 lock.0) }
        ensures { Answers self.old seat.0 (Unlock lock mode) result self.new }
    {
        let spin = self.class_of_lock(lock).is_spin();
        let watch = self.watch();
        let reply = self.seats.release(seat, spin, lock, mode, watch)?;
        if let Reply::Ignored = reply {
            return Ok(reply);
        }
        let entry = Entry {
            seat,
            call: Call::Unlock(lock, mode),
            reply: Reply::Unlocked,
        };
        let_go(&mut self.ready);
        self.log.push_owed(entry, 0);
        Ok(reply)
    }
}
