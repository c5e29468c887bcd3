//! What lies behind the lock: the verifier, the keeper of its log, and the publisher of its orders.

ghost use Rattle.std.specs.Prelude.{◌≡◌, ◌+◌, ◌≤◌, [], IfOk, IfErr};
ghost use mathlib.Core.List.{IsPrefix};
ghost use Rattle.std.specs.Option.{option_copied};
ghost use Rattle.wit_model.specs.declared.calls.Call.TheVariants.{Init, Note, GiveUp, Unlock};
ghost use Rattle.wit_model.specs.declared.faults.Fault.TheVariants.{UnknownSeat};
ghost use Rattle.wit_model.specs.Rules.Assertions.{step_assert};
ghost use Rattle.wit_model.specs.Rules.Files.{NamesFile};
ghost use Rattle.wit_model.specs.Rules.State.{state_of};
ghost use Rattle.wit_model.specs.Rules.Step.{Answers, AnswersOrFails};
ghost use Rattle.wit_model.specs.Rules.Warnings.{step_warn};
ghost use Rattle.wit_core.specs.Replies.{new_lock, made_reply};
ghost use Rattle.wit_seats.specs.Rule.{journal, newcomer};
ghost use Rattle.wit_seats.specs.Seats.{Told};
ghost use Rattle.wit_shared.specs.Calls.{given_by};
ghost use Rattle.wit_shared.specs.Publishing.{adoptions, published};

use crate::following::{follow, follow_file, look};
use crate::looking::Look;
use crate::publishing::make;
use std::alloc::Global;
use std::marker::Model;
use std::sync::Wait;
use wit_core::Verifier;
use wit_model::{
    AssertAnswer, Call, Class, Fault, FileNo, LockAssert, LockFlags, LockNo, Mode, Reply, SeatNo,
    WarnFlags,
};
use wit_observers::{News, Observer, Publisher};
use wit_seats::{LogKeeper, Room, Seat};

/// A verifier whose log is legal behind the start given, with the keeper that knows it as it is,
/// and all its adopted orders published. It can't be let go of, but is closed or abandoned.
pub struct Desk<J: Room> {
    pub(crate) alloc: Global,
    pub(crate) verifier: Verifier,
    pub(crate) handed: u16,
    pub(crate) keeper: LogKeeper<J>,
    pub(crate) publisher: Publisher<J>,
}

impl<J: Room> Model for Desk<J> {
    ghost use Rattle.std.specs.Prelude.{◌≡◌};
    ghost use Rattle.wit_shared.specs.Desk.{DeskValue};

    ghost Value = { DeskValue };

    ghost use Rattle.wit_seats.specs.Rule.{journal};
    ghost use Rattle.wit_shared.specs.Publishing.{published};

    ghost view = { λ d. record { story = d.verifier; handed = d.handed } };

    ghost invariant = { λ d. (d.verifier.start ≡ J.start)
        × (d.keeper ≡ journal d.verifier.history d.verifier.files d.handed)
        × (d.publisher ≡ published d.verifier) };
}

impl<J: Room> Desk<J> {
    // The verifier, the keeper that knows its log, and the publisher.
    pub(crate) fn into_parts(self) -> (Verifier, LogKeeper<J>, Publisher<J>)
        ensures verifier { result.0 ≡ self.story }
        ensures start { result.0.start ≡ J.start }
        ensures keeper { result.1 ≡ journal self.story.history self.story.files self.handed }
    {
        let Desk {
            alloc: _,
            verifier,
            handed: _,
            keeper,
            publisher,
        } = self;
        (verifier, keeper, publisher)
    }

    /// Hands out the next seat.
    pub fn seat(&mut self) -> Result<Seat<J>, Fault>
        ensures ok { IfOk result (λ s. (s.seat ≡ self.old.handed + 1)
            × (s.seat ≤ J.start.sizes.seats) × (s.own ≡ []) × (s.given ≡ [])) }
        ensures err { IfErr result (λ e. (e ≡ UnknownSeat)
            × (J.start.sizes.seats ≤ self.old.handed)) }
    {
        // Called for its clause that the log is legal.
        let _log = self.verifier.history();
        if self.handed >= self.verifier.seats() {
            return Err(Fault::UnknownSeat);
        }
        look(&mut self.keeper, &self.verifier);
        let number = self.handed + 1;
        let seat = self.keeper.hand_out(SeatNo(number));
        self.handed = number;
        Ok(seat)
    }

    /// Makes a logged call, whichever it is.
    pub fn call<R: Wait>(&mut self, rt: &R, seat: &mut Seat<J>, call: Call) -> Result<Reply, Fault>
        ensures { Told J.start [] (λ before after.
            AnswersOrFails before seat.old.seat call result after)
            seat.old seat.new }
    {
        let answer = make(
            rt,
            self.alloc,
            &mut self.verifier,
            &mut self.publisher,
            seat.number(),
            call,
        );
        follow(&mut self.keeper, &self.verifier, seat);
        answer
    }

    /// Makes a lock.
    pub fn init(
        &mut self,
        seat: &mut Seat<J>,
        name: &str,
        type_name: Option<&str>,
        class: Class,
        flags: LockFlags,
    ) -> Result<LockNo, Fault>
        ensures { Told J.start [] (λ before after. AnswersOrFails before seat.old.seat
            (Init (new_lock name.now (option_copied type_name.entry) class flags))
            (made_reply result) after) seat.old seat.new }
    {
        let answer = self
            .verifier
            .init(seat.number(), name, type_name, class, flags);
        follow(&mut self.keeper, &self.verifier, seat);
        answer
    }

    /// Notes an acquisition.
    pub fn note(&mut self, seat: &mut Seat<J>, lock: LockNo) -> Result<Reply, Fault>
        ensures { Told J.start [] (λ before after.
            Answers before seat.old.seat (Note lock) result after)
            seat.old seat.new }
    {
        let answer = self.verifier.note(seat.number(), lock);
        follow(&mut self.keeper, &self.verifier, seat);
        answer
    }

    /// Drops a request.
    pub fn give_up(&mut self, seat: &mut Seat<J>, lock: LockNo) -> Result<Reply, Fault>
        ensures { Told J.start [] (λ before after.
            Answers before seat.old.seat (GiveUp lock) result after)
            seat.old seat.new }
    {
        let answer = self.verifier.give_up(seat.number(), lock);
        follow(&mut self.keeper, &self.verifier, seat);
        answer
    }

    /// Notes a release.
    pub fn unlock(&mut self, seat: &mut Seat<J>, lock: LockNo, mode: Mode) -> Result<Reply, Fault>
        ensures { Told J.start [] (λ before after.
            Answers before seat.old.seat (Unlock lock mode) result after)
            seat.old seat.new }
    {
        let answer = self.verifier.unlock(seat.number(), lock, mode);
        follow(&mut self.keeper, &self.verifier, seat);
        answer
    }

    /// Names a file.
    pub fn file(&mut self, seat: &mut Seat<J>, name: &str) -> Result<FileNo, Fault>
        ensures { Told J.start (given_by result name.now)
            (λ before after. NamesFile before name.now result after) seat.old seat.new }
    {
        match self.verifier.file(name) {
            Ok(file) => {
                follow_file(&mut self.keeper, &self.verifier, seat, file, name);
                Ok(file)
            }
            Err(fault) => {
                follow(&mut self.keeper, &self.verifier, seat);
                Err(fault)
            }
        }
    }

    /// Asserts how a lock is held.
    pub fn assert_lock(
        &mut self,
        seat: &mut Seat<J>,
        lock: LockNo,
        flags: LockAssert,
    ) -> Result<AssertAnswer, Fault>
        ensures { Told J.start [] (λ before after.
            (result ≡ step_assert (state_of before) seat.old.seat lock.0 flags)
            × (after ≡ before)) seat.old seat.new }
    {
        follow(&mut self.keeper, &self.verifier, seat);
        self.verifier.assert_lock(seat.number(), lock, flags)
    }

    /// Counts held locks.
    pub fn warn(
        &mut self,
        seat: &mut Seat<J>,
        named: Option<LockNo>,
        flags: WarnFlags,
    ) -> Result<usize, Fault>
        ensures { Told J.start [] (λ before after.
            (result ≡ step_warn (state_of before) seat.old.seat named flags)
            × (after ≡ before)) seat.old seat.new }
    {
        follow(&mut self.keeper, &self.verifier, seat);
        self.verifier.warn(seat.number(), named, flags)
    }

    /// Looks at the verifier.
    pub fn look<L: Look>(&mut self, seat: &mut Seat<J>, wanted: L) -> L::Out
        ensures { Told J.start [] (λ before after. (L.done wanted result before)
            × (after ≡ before)) seat.old seat.new }
    {
        follow(&mut self.keeper, &self.verifier, seat);
        wanted.look(&self.verifier)
    }

    /// News of all adopted orders.
    pub fn news(&mut self, seat: &mut Seat<J>) -> News<J>
        ensures told { Told J.start [] (λ before after. after ≡ before) seat.old seat.new }
        ensures all { result ≡ adoptions J.start seat.new.seen }
    {
        follow(&mut self.keeper, &self.verifier, seat);
        self.publisher.news()
    }

    /// Shows that what an observer knows is how the adopted orders begin.
    pub fn covers(&mut self, seat: &mut Seat<J>, observer: &Observer<J>)
        ensures told { Told J.start [] (λ before after. after ≡ before) seat.old seat.new }
        ensures begins { IsPrefix observer.now (adoptions J.start seat.new.seen) }
    {
        follow(&mut self.keeper, &self.verifier, seat);
        self.publisher.covers(observer.front());
    }

    /// Ends the publisher, and drops the rest.
    pub fn abandon<R: Wait>(self, rt: &R) {
        let (_verifier, _keeper, publisher) = self.into_parts();
        publisher.end(rt);
    }
}
