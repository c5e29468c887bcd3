//! `note_try`: a lock was acquired without waiting.

ghost use Rattle.std.specs.Prelude.{◌≡◌, Ok, Err, IfOk, IfErr, OnOk, OnErr};
ghost use Rattle.wit_model.specs.declared.calls.Call.TheVariants.{NoteTry};
ghost use Rattle.wit_model.specs.Rules.State.{state_of};
ghost use Rattle.wit_model.specs.Rules.Step.{AnswersOrFails, answer_of, logged, recorded_reply};
ghost use Rattle.wit_core.specs.Acquiring.{reply_to};

use crate::acquiring::{Acquisition, acquire};
use crate::ready::let_go;
use crate::verifier::Verifier;
use std::alloc::AllocError;
use wit_model::{Call, Entry, Fault, Instance, LockNo, Mode, Reply, SeatNo, Site};

impl Verifier {
    /// Tells that a lock was acquired without waiting, as by `mtx_trylock`: WITNESS's `lock` with
    /// `LOP_TRYLOCK`. No order is checked or learnt, nor how the lock is held: one that the seat
    /// holds is acquired once more, in the mode in which it is held. The answers are those of
    /// `note`.
    ///
    /// # Errors
    /// In this order: `UnknownSeat`; `UnknownLock`; `UnknownFile`; `ModeNotAllowed` for a mutex
    /// taken shared; `Pending` where the seat has a request; `RecursionTooDeep`, unless nothing is
    /// watched, where it has acquired the lock 65,536 times; `LogFull`; `OutOfMemory`.
    pub fn note_try(
        &mut self,
        seat: SeatNo,
        lock: LockNo,
        mode: Mode,
        site: Site,
    ) -> Result<Reply, Fault>
        ensures { AnswersOrFails self.old seat.0 (NoteTry lock mode site) result self.new }
    {
        self.answer_try(seat, lock, mode, site)?;
        let acquisition = self.enter_try(seat, lock, mode, site)?;
        Ok(acquisition.reply())
    }

    fn answer_try(&self, seat: SeatNo, lock: LockNo, mode: Mode, site: Site) -> Result<(), Fault>
        ensures ok { OnOk result (answer_of self.now seat.0 (NoteTry lock mode site)
            ≡ Ok (recorded_reply (state_of self.now) seat.0 lock.0)) }
        ensures err { IfErr result (λ e. answer_of self.now seat.0 (NoteTry lock mode site)
            ≡ Err e) }
    {
        self.before_acquiring(seat, lock, mode, site)?;
        if !self.has_room(2) {
            return Err(Fault::LogFull);
        }
        Ok(())
    }

    fn enter_try(
        &mut self,
        seat: SeatNo,
        lock: LockNo,
        mode: Mode,
        site: Site,
    ) -> Result<Acquisition, AllocError>
        requires { answer_of self.old seat.0 (NoteTry lock mode site)
            ≡ Ok (recorded_reply (state_of self.old) seat.0 lock.0) }
        ensures result { IfOk result (λ a. reply_to a
            ≡ recorded_reply (state_of self.old) seat.0 lock.0) }
        ensures entered { IfOk result
            (λ a. self.new ≡ logged self.old seat.0 (NoteTry lock mode site) (reply_to a)) }
        ensures err { OnErr result (self.new ≡ self.old) }
    {
        let spin = self.class_of_lock(lock).is_spin();
        self.log.reserve(2)?;
        let taken = Instance {
            lock,
            mode,
            norelease: false,
            count: 0,
            site,
        };
        let acquisition = acquire(&mut self.seats, &mut self.watch, seat, spin, taken);
        let entry = Entry {
            seat,
            call: Call::NoteTry(lock, mode, site),
            reply: acquisition.reply(),
        };
        let_go(&mut self.ready);
        self.log.push(entry, acquisition.owed());
        Ok(acquisition)
    }
}
