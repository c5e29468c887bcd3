//! `upgrade` and `downgrade`: a lock held shared is held exclusively, and the other way round.

ghost use Rattle.std.specs.Prelude.{◌≡◌, Some, Ok, IfOk, OnOk, OnErr, true, false};
ghost use Rattle.wit_model.specs.declared.calls.Call.TheVariants.{Upgrade, Downgrade};
ghost use Rattle.wit_model.specs.declared.calls.Reply.TheVariants.{Done};
ghost use Rattle.wit_model.specs.declared.locks.Watch.{Watch};
ghost use Rattle.wit_model.specs.Rules.State.{state_of};
ghost use Rattle.wit_model.specs.Rules.Step.{AnswersOrFails, answer_of, held_by, is_logged, logged};
ghost use Rattle.wit_model.specs.Rules.Questions.{unless_held};
ghost use Rattle.wit_model.specs.Rules.Turning.{step_turn};
ghost use Rattle.wit_core.specs.Turning.{turn_call, turn_answer};

use crate::log::is_logged;
use crate::ready::let_go;
use crate::verifier::Verifier;
use std::alloc::AllocError;
use wit_model::{Call, Entry, Fault, Instance, LockNo, Mode, Reply, SeatNo, Watch};

impl Verifier {
    /// Tells that a lock held shared is held exclusively from now on, as after `rw_try_upgrade` of
    /// rwlock(9) and `sx_try_upgrade` of sx(9): WITNESS's `upgrade`. Its place and its site stay.
    /// Where not everything is watched and the lock isn't held by the record, it is `Ignored`,
    /// which is not logged.
    ///
    /// # Errors
    /// In this order: `UnknownSeat`; `UnknownLock`; `Pending` where the seat has a request;
    /// `NotUpgradable` for a mutex; `NotLocked` where everything is watched; `UpgradeOfExclusive`
    /// where the lock is held exclusively; `UpgradeRecursed` where it was acquired again;
    /// `LogFull`; `OutOfMemory`.
    pub fn upgrade(&mut self, seat: SeatNo, lock: LockNo) -> Result<Reply, Fault>
        ensures { AnswersOrFails self.old seat.0 (Upgrade lock) result self.new }
    {
        let reply = self.answer_turn(seat, lock, Mode::Exclusive)?;
        if is_logged(&reply) {
            self.enter_turn(seat, lock, Mode::Exclusive)?;
        }
        Ok(reply)
    }

    /// Tells that a lock held exclusively is held shared from now on, as after `rw_downgrade` of
    /// rwlock(9) and `sx_downgrade` of sx(9): WITNESS's `downgrade`. Its place and its site stay.
    /// Where not everything is watched and the lock isn't held by the record, it is `Ignored`,
    /// which is not logged.
    ///
    /// # Errors
    /// In this order: `UnknownSeat`; `UnknownLock`; `Pending` where the seat has a request;
    /// `NotUpgradable` for a mutex; `NotLocked` where everything is watched; `DowngradeOfShared`
    /// where the lock is held shared; `DowngradeRecursed` where it was acquired again; `LogFull`;
    /// `OutOfMemory`.
    pub fn downgrade(&mut self, seat: SeatNo, lock: LockNo) -> Result<Reply, Fault>
        ensures { AnswersOrFails self.old seat.0 (Downgrade lock) result self.new }
    {
        let reply = self.answer_turn(seat, lock, Mode::Shared)?;
        if is_logged(&reply) {
            self.enter_turn(seat, lock, Mode::Shared)?;
        }
        Ok(reply)
    }

    // The answer to a turn to this mode.
    fn answer_turn(&self, seat: SeatNo, lock: LockNo, mode: Mode) -> Result<Reply, Fault>
        ensures answer { result ≡ step_turn (state_of self.now) seat.0 lock.0
            (turn_answer mode (state_of self.now).watch
            (held_by (state_of self.now) seat.0 lock.0)) }
        ensures logged { IfOk result (λ r. is_logged r ≡ true → r ≡ Done) }
    {
        self.before_naming(seat, lock)?;
        if !self.class_of_lock(lock).is_shareable() {
            return Err(Fault::NotUpgradable);
        }
        let Some(held) = self.held(seat, lock) else {
            return unless_held(self.watch());
        };
        let reply = judge_turn(held, mode)?;
        if !self.has_room(1) {
            return Err(Fault::LogFull);
        }
        Ok(reply)
    }

    fn enter_turn(&mut self, seat: SeatNo, lock: LockNo, mode: Mode) -> Result<(), AllocError>
        requires { answer_of self.old seat.0 (turn_call mode lock) ≡ Ok Done }
        ensures ok { OnOk result (self.new ≡ logged self.old seat.0 (turn_call mode lock) Done) }
        ensures err { OnErr result (self.new ≡ self.old) }
    {
        let spin = self.class_of_lock(lock).is_spin();
        self.log.reserve(1)?;
        self.seats.turn(seat, spin, lock, mode);
        let entry = Entry {
            seat,
            call: turn_call(lock, mode),
            reply: Reply::Done,
        };
        let_go(&mut self.ready);
        self.log.push(entry, 0);
        Ok(())
    }
}

// The call that turns a lock to this mode.
fn turn_call(lock: LockNo, mode: Mode) -> Call
    ensures { result ≡ turn_call mode lock }
{
    match mode {
        Mode::Exclusive => Call::Upgrade(lock),
        Mode::Shared => Call::Downgrade(lock),
    }
}

// A held lock is turned to this mode: but not to the one that it has, and not where it was acquired
// again.
fn judge_turn(held: Instance, mode: Mode) -> Result<Reply, Fault>
    ensures answer { (watch : Watch) → result ≡ turn_answer mode watch (Some held) }
    ensures done { IfOk result (λ r. r ≡ Done) }
{
    match mode {
        Mode::Exclusive if held.mode.is_exclusive() => Err(Fault::UpgradeOfExclusive),
        Mode::Exclusive if held.count > 0 => Err(Fault::UpgradeRecursed),
        Mode::Shared if !held.mode.is_exclusive() => Err(Fault::DowngradeOfShared),
        Mode::Shared if held.count > 0 => Err(Fault::DowngradeRecursed),
        _ => Ok(Reply::Done),
    }
}

/// A call about a lock that isn't held: a fault where everything is watched; where less is, it is
/// passed over.
pub(crate) fn unless_held(watch: Watch) -> Result<Reply, Fault>
    ensures answer { result ≡ unless_held watch }
    ensures passed { IfOk result (λ r. is_logged r ≡ false) }
{
    if watch.is_on() {
        Err(Fault::NotLocked)
    } else {
        Ok(Reply::Ignored)
    }
}
