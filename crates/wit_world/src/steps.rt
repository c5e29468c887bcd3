//! Steps of the locks themselves.

ghost use Rattle.std.specs.Prelude.{◌≡◌, true, Ok, Err, OnOk, OnErr, IfOk, IfErr};
ghost use Rattle.wit_model.specs.Rules.State.{state_of, is_seat};
ghost use Rattle.wit_model.specs.World.Scenes.{stage_at, deed_of, is_known, may_come, is_free};
ghost use Rattle.wit_model.specs.World.Scenes.{raw_after, stage_stepped, stepped, step_raw};
ghost use Rattle.wit_world.specs.Stages.{stage_of};
ghost use Rattle.wit_world.specs.Steps.{StepsTo, IsReadyFor, deed_in, takes_share};

use crate::raw::Raw;
use crate::stages::Stage;
use crate::world::World;
use std::alloc::AllocError;
use wit_model::{Fault, LockNo, Mode, RawStep, SeatNo};

impl World {
    /// A seat does a step to a lock itself.
    ///
    /// # Errors
    /// In this order: `UnknownSeat`; `UnknownLock`, for a share that is freed only where the lock
    /// was never made; `StepOrder` where the step isn't the next one of a sequence, or the seat has
    /// no share to free; `RawNotFree` where the lock doesn't admit it. `OutOfMemory` alone where
    /// the seat would get a share. Nothing is changed then.
    ///
    /// It is inlined, so that one that is known pays for no other.
    #[inline(always)]
    pub fn step(&mut self, seat: SeatNo, lock: LockNo, step: RawStep) -> Result<(), Fault>
        ensures { StepsTo self.old seat.0 lock.0 step result self.new }
    {
        self.before_step(seat, lock, step)?;
        let asked = self.stage(seat).mode_asked();
        let after = change(&mut self.raw, seat, lock, step, asked)?;
        self.stages[seat.0 as usize - 1] = after;
        Ok(())
    }

    // The faults of a step; without one it can be done.
    #[inline(always)]
    fn before_step(&self, seat: SeatNo, lock: LockNo, step: RawStep) -> Result<(), Fault>
        ensures ok { OnOk result (step_raw self.now seat.0 lock.0 step
            ≡ Ok (stepped self.now (deed_of (stage_at self.now seat.0) seat.0 lock.0 step))) }
        ensures seat { OnOk result (is_seat (state_of self.now.story) seat.0 ≡ true) }
        ensures ready { OnOk result (IsReadyFor self.now.raw seat.0 lock.0 step) }
        ensures err { IfErr result (λ f. step_raw self.now seat.0 lock.0 step ≡ Err f) }
    {
        if !self.is_seat(seat) {
            return Err(Fault::UnknownSeat);
        }
        if !self.is_known(lock, step) {
            return Err(Fault::UnknownLock);
        }
        if !self.may_step(seat, lock, step) {
            return Err(Fault::StepOrder);
        }
        if !self.is_free(seat, lock, step) {
            return Err(Fault::RawNotFree);
        }
        // Called for its clauses: the log is short, and a world is shown.
        let _entries = self.entries();
        Ok(())
    }

    // Whether a lock is live; where a share is freed, whether it was ever made.
    #[inline(always)]
    fn is_known(&self, lock: LockNo, step: RawStep) -> bool
        ensures { result ≡ is_known (state_of self.now.story) lock.0 step }
    {
        match step {
            RawStep::Free => self.verifier.type_of(lock).is_some(),
            RawStep::Take | RawStep::TryTake(_) | RawStep::Up | RawStep::Down => self
                .verifier
                .is_live(lock),
        }
    }

    // Whether a step may come next.
    #[inline(always)]
    fn may_step(&self, seat: SeatNo, lock: LockNo, step: RawStep) -> bool
        requires { is_seat (state_of self.now.story) seat.0 ≡ true }
        ensures { result ≡ may_come self.now
            (deed_of (stage_at self.now seat.0) seat.0 lock.0 step) }
    {
        let stage = self.stage(seat);
        match step {
            RawStep::Take => stage.has_asked_for(lock) && !self.is_held(seat, lock),
            RawStep::TryTake(_) => stage.is_over(),
            RawStep::Up => stage.is_over(),
            RawStep::Free => stage.has_forgotten(lock) && 0 < self.raw.shares(seat, lock),
            RawStep::Down => stage.has_lowered(lock),
        }
    }

    // Whether a lock admits a step.
    #[inline(always)]
    fn is_free(&self, seat: SeatNo, lock: LockNo, step: RawStep) -> bool
        requires { is_seat (state_of self.now.story) seat.0 ≡ true }
        ensures { result ≡ is_free self.now.raw
            (deed_of (stage_at self.now seat.0) seat.0 lock.0 step) }
    {
        match step {
            RawStep::Take => self.raw.is_admitted(lock, self.stage(seat).mode_asked()),
            RawStep::TryTake(mode) => self.raw.is_admitted(lock, mode),
            RawStep::Free => true,
            RawStep::Up => self.raw.is_only(seat, lock) && !self.raw.is_exclusive(lock),
            RawStep::Down => 0 < self.raw.shares(seat, lock) && self.raw.is_exclusive(lock),
        }
    }
}

// What a step does to the shares of its lock, and where its seat stands then. A lock that is taken
// is taken in the mode asked for.
#[inline(always)]
fn change(
    raw: &mut Raw,
    seat: SeatNo,
    lock: LockNo,
    step: RawStep,
    asked: Mode,
) -> Result<Stage, AllocError>
    requires { IsReadyFor raw.old seat.0 lock.0 step }
    ensures raw { OnOk result (raw.new ≡ raw_after (deed_in asked seat.0 lock.0 step) raw.old) }
    ensures stage { IfOk result (λ at. stage_of at
        ≡ stage_stepped (deed_in asked seat.0 lock.0 step)) }
    ensures err { OnErr result (raw.new ≡ raw.old) }
    ensures takes { OnErr result (takes_share step ≡ true) }
{
    match step {
        RawStep::Take => {
            raw.take(seat, lock, asked)?;
            Ok(Stage::Taken(lock))
        }
        RawStep::TryTake(mode) => {
            raw.take(seat, lock, mode)?;
            Ok(Stage::Tried(lock, mode))
        }
        RawStep::Free => {
            raw.free(seat, lock);
            Ok(Stage::Over)
        }
        RawStep::Up => {
            raw.turn(seat, lock, Mode::Exclusive);
            Ok(Stage::Raised(lock))
        }
        RawStep::Down => {
            raw.turn(seat, lock, Mode::Shared);
            Ok(Stage::Over)
        }
    }
}
