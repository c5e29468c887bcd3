//! The shared verifier, and its calls that are logged.

ghost use Rattle.std.specs.Prelude.{◌≡◌, ◌≢◌, ◌≤◌, [], Err, IfOk, IfErr, IsOk};
ghost use Rattle.std.specs.Option.{option_copied};
ghost use Rattle.wit_model.specs.declared.calls.Call.TheVariants.{Init, Check, Note, NoteTry};
ghost use Rattle.wit_model.specs.declared.calls.Call.TheVariants.{GiveUp, Unlock, SetWatch};
ghost use Rattle.wit_model.specs.declared.calls.Call.TheVariants.{Destroy, Upgrade, Downgrade};
ghost use Rattle.wit_model.specs.declared.calls.Call.TheVariants.{NoRelease, ReleaseOk};
ghost use Rattle.wit_model.specs.declared.calls.Call.TheVariants.{DefineOrder};
ghost use Rattle.wit_model.specs.declared.faults.Fault.TheVariants.{UnknownFile, UnknownSeat};
ghost use Rattle.wit_model.specs.Rules.Step.{Answers, AnswersOrFails};
ghost use Rattle.wit_core.specs.Replies.{new_lock, made_reply};
ghost use Rattle.wit_seats.specs.Seats.{Told};
ghost use Rattle.wit_shared.specs.Own.{AsksFor, HasFile};

use crate::desk::Desk;
use std::sync::{Mutex, MutexGuard, Wait};
use wit_model::{
    Call, Class, Fault, LockFlags, LockNo, Mode, OpFlags, Reply, Request, Site, Watch,
};
use wit_seats::{Room, Seat};

/// A verifier that threads share, each with the token of a seat. Its calls are the verifier's, made
/// under one lock.
///
/// A call tells its seat (`Told`): others had made entries since the seat last looked, and none of
/// them is its own; from there the call did what the verifier's own clause says; and the seat has
/// then seen all of it. So its answer is that of the rules at a legal history of the start given,
/// which begins with all that the seat had seen.
///
/// It can't be let go of: `close` gives the verifier back, and `abandon` drops it.
pub struct Shared<J: Room> {
    pub(crate) desk: Mutex<Desk<J>>,
}

impl<J: Room> Shared<J> {
    pub(crate) fn of(desk: Desk<J>) -> Shared<J> {
        Shared {
            desk: Mutex::new(desk),
        }
    }

    // From behind its lock.
    pub(crate) fn into_desk(self) -> Desk<J> {
        let Shared { desk } = self;
        desk.into_inner()
    }

    /// Hands out a seat: their numbers are given from 1, in order. It has made no entry and was
    /// given no file.
    ///
    /// # Errors
    /// `UnknownSeat` where no number is left.
    pub fn seat<R: Wait>(&self, rt: &R) -> Result<Seat<J>, Fault>
        ensures ok { IfOk result (λ s. (s.seat ≤ J.start.sizes.seats) × (s.own ≡ [])
            × (s.given ≡ [])) }
        ensures err { IfErr result (λ e. e ≡ UnknownSeat) }
    {
        let mut desk = self.desk.lock(rt);
        let answer = desk.seat();
        let _ = MutexGuard::unlock(desk);
        answer
    }

    // Makes a logged call, whichever it is.
    fn call<R: Wait>(&self, rt: &R, seat: &mut Seat<J>, call: Call) -> Result<Reply, Fault>
        ensures { Told J.start [] (λ before after.
            AnswersOrFails before seat.old.seat call result after)
            seat.old seat.new }
    {
        let mut desk = self.desk.lock(rt);
        let answer = desk.call(rt, seat, call);
        let _ = MutexGuard::unlock(desk);
        answer
    }

    /// Makes a lock: `Verifier::init`.
    ///
    /// # Errors
    /// Those of `Verifier::init`.
    pub fn init<R: Wait>(
        &self,
        rt: &R,
        seat: &mut Seat<J>,
        name: &str,
        type_name: Option<&str>,
        class: Class,
        flags: LockFlags,
    ) -> Result<LockNo, Fault>
        ensures { Told J.start [] (λ before after. AnswersOrFails before seat.old.seat
            (Init (new_lock name.now (option_copied type_name.entry) class flags))
            (made_reply result) after) seat.old seat.new }
    {
        let mut desk = self.desk.lock(rt);
        let answer = desk.init(seat, name, type_name, class, flags);
        let _ = MutexGuard::unlock(desk);
        answer
    }

    /// Asks whether a lock may be acquired: `Verifier::check`.
    ///
    /// # Errors
    /// Those of `Verifier::check`; not `UnknownFile` for a file that the seat was given.
    pub fn check<R: Wait>(
        &self,
        rt: &R,
        seat: &mut Seat<J>,
        lock: LockNo,
        mode: Mode,
        ops: OpFlags,
        site: Site,
    ) -> Result<Reply, Fault>
        ensures told { Told J.start [] (λ before after. AnswersOrFails before seat.old.seat
            (Check (record { lock = lock; site = site; mode = mode; ops = ops })) result after)
            seat.old seat.new }
        ensures file { HasFile seat.old.given site.file → result ≢ Err UnknownFile }
    {
        let request = Request {
            lock,
            site,
            mode,
            ops,
        };
        self.call(rt, seat, Call::Check(request))
    }

    /// A requested lock was acquired: `Verifier::note`. It takes no memory, and is accepted where
    /// the seat asks for the lock.
    ///
    /// # Errors
    /// Those of `Verifier::note`.
    pub fn note<R: Wait>(&self, rt: &R, seat: &mut Seat<J>, lock: LockNo) -> Result<Reply, Fault>
        ensures told { Told J.start [] (λ before after.
            Answers before seat.old.seat (Note lock) result after)
            seat.old seat.new }
        ensures asked { AsksFor seat.old lock → IsOk result }
    {
        let mut desk = self.desk.lock(rt);
        let answer = desk.note(seat, lock);
        let _ = MutexGuard::unlock(desk);
        answer
    }

    /// A lock was acquired without waiting: `Verifier::note_try`.
    ///
    /// # Errors
    /// Those of `Verifier::note_try`; not `UnknownFile` for a file that the seat was given.
    pub fn note_try<R: Wait>(
        &self,
        rt: &R,
        seat: &mut Seat<J>,
        lock: LockNo,
        mode: Mode,
        site: Site,
    ) -> Result<Reply, Fault>
        ensures told { Told J.start []
            (λ before after. AnswersOrFails before seat.old.seat
            (NoteTry lock mode site) result after)
            seat.old seat.new }
        ensures file { HasFile seat.old.given site.file → result ≢ Err UnknownFile }
    {
        self.call(rt, seat, Call::NoteTry(lock, mode, site))
    }

    /// A requested lock wasn't acquired: `Verifier::give_up`. It takes no memory, and is accepted
    /// where the seat asks for the lock.
    ///
    /// # Errors
    /// Those of `Verifier::give_up`.
    pub fn give_up<R: Wait>(&self, rt: &R, seat: &mut Seat<J>, lock: LockNo) -> Result<Reply, Fault>
        ensures told { Told J.start [] (λ before after.
            Answers before seat.old.seat (GiveUp lock) result after)
            seat.old seat.new }
        ensures asked { AsksFor seat.old lock → IsOk result }
    {
        let mut desk = self.desk.lock(rt);
        let answer = desk.give_up(seat, lock);
        let _ = MutexGuard::unlock(desk);
        answer
    }

    /// A lock is released: `Verifier::unlock`. It takes no memory.
    ///
    /// # Errors
    /// Those of `Verifier::unlock`.
    pub fn unlock<R: Wait>(
        &self,
        rt: &R,
        seat: &mut Seat<J>,
        lock: LockNo,
        mode: Mode,
    ) -> Result<Reply, Fault>
        ensures { Told J.start [] (λ before after.
            Answers before seat.old.seat (Unlock lock mode) result after)
            seat.old seat.new }
    {
        let mut desk = self.desk.lock(rt);
        let answer = desk.unlock(seat, lock, mode);
        let _ = MutexGuard::unlock(desk);
        answer
    }

    /// A lock held shared is held exclusively from now on: `Verifier::upgrade`.
    ///
    /// # Errors
    /// Those of `Verifier::upgrade`.
    pub fn upgrade<R: Wait>(&self, rt: &R, seat: &mut Seat<J>, lock: LockNo) -> Result<Reply, Fault>
        ensures { Told J.start [] (λ before after. AnswersOrFails before seat.old.seat
            (Upgrade lock) result after) seat.old seat.new }
    {
        self.call(rt, seat, Call::Upgrade(lock))
    }

    /// A lock held exclusively is held shared from now on: `Verifier::downgrade`.
    ///
    /// # Errors
    /// Those of `Verifier::downgrade`.
    pub fn downgrade<R: Wait>(
        &self,
        rt: &R,
        seat: &mut Seat<J>,
        lock: LockNo,
    ) -> Result<Reply, Fault>
        ensures { Told J.start [] (λ before after. AnswersOrFails before seat.old.seat
            (Downgrade lock) result after) seat.old seat.new }
    {
        self.call(rt, seat, Call::Downgrade(lock))
    }

    /// A held lock must not be released: `Verifier::norelease`.
    ///
    /// # Errors
    /// Those of `Verifier::norelease`.
    pub fn norelease<R: Wait>(
        &self,
        rt: &R,
        seat: &mut Seat<J>,
        lock: LockNo,
    ) -> Result<Reply, Fault>
        ensures { Told J.start [] (λ before after. AnswersOrFails before seat.old.seat
            (NoRelease lock) result after) seat.old seat.new }
    {
        self.call(rt, seat, Call::NoRelease(lock))
    }

    /// It may be released again: `Verifier::releaseok`.
    ///
    /// # Errors
    /// Those of `Verifier::releaseok`.
    pub fn releaseok<R: Wait>(
        &self,
        rt: &R,
        seat: &mut Seat<J>,
        lock: LockNo,
    ) -> Result<Reply, Fault>
        ensures { Told J.start [] (λ before after. AnswersOrFails before seat.old.seat
            (ReleaseOk lock) result after) seat.old seat.new }
    {
        self.call(rt, seat, Call::ReleaseOk(lock))
    }

    /// A lock is no more: `Verifier::destroy`.
    ///
    /// # Errors
    /// Those of `Verifier::destroy`.
    pub fn destroy<R: Wait>(&self, rt: &R, seat: &mut Seat<J>, lock: LockNo) -> Result<Reply, Fault>
        ensures { Told J.start [] (λ before after. AnswersOrFails before seat.old.seat
            (Destroy lock) result after) seat.old seat.new }
    {
        self.call(rt, seat, Call::Destroy(lock))
    }

    /// This much is watched from now on: `Verifier::set_watch`.
    ///
    /// # Errors
    /// Those of `Verifier::set_watch`.
    pub fn set_watch<R: Wait>(
        &self,
        rt: &R,
        seat: &mut Seat<J>,
        watch: Watch,
    ) -> Result<Reply, Fault>
        ensures { Told J.start [] (λ before after. AnswersOrFails before seat.old.seat
            (SetWatch watch) result after) seat.old seat.new }
    {
        self.call(rt, seat, Call::SetWatch(watch))
    }

    /// The first lock's type is before the second one's: `Verifier::define_order`.
    ///
    /// # Errors
    /// Those of `Verifier::define_order`.
    pub fn define_order<R: Wait>(
        &self,
        rt: &R,
        seat: &mut Seat<J>,
        first: LockNo,
        second: LockNo,
    ) -> Result<Reply, Fault>
        ensures { Told J.start [] (λ before after. AnswersOrFails before seat.old.seat
            (DefineOrder first second) result after) seat.old seat.new }
    {
        self.call(rt, seat, Call::DefineOrder(first, second))
    }
}
