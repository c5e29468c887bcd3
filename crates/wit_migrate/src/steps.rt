//! The steps of locks themselves that go with calls.

ghost use Rattle.std.specs.Prelude.{◌≡◌, ◌<◌, ◌-◌, ◌^◌, ◌++◌, ◌∷◌, [], true, false, None, Some};
ghost use Rattle.std.specs.Prelude.{ℕ, List, if◌then◌else◌};
ghost use Rattle.std.specs.Prelude.{IfOk, IfSome, OnOk, OnErr};
ghost use Rattle.wit_model.specs.Rules.History.{is_held, num, pending};
ghost use Rattle.wit_model.specs.Rules.State.{state_of, is_seat};
ghost use Rattle.wit_model.specs.Trace.LineCalls.{Logs};
ghost use Rattle.wit_model.specs.World.Deeds.{RawDown};
ghost use Rattle.wit_model.specs.World.Moving.{is_kept, stage_asked};
ghost use Rattle.wit_model.specs.World.Scenes.{got, has_share, is_free, mode_asked, raw_after};
ghost use Rattle.wit_model.specs.World.Scenes.{shares_of};
ghost use Rattle.wit_model.specs.declared.raw_steps.RawStep.TheVariants.{Take, Free, Down};
ghost use Rattle.wit_world.specs.Steps.{makes_lock};
ghost use Rattle.wit_migrate.specs.Migrates.{Does, DoesBeside, GoesWithCall, IsLineOf};
ghost use Rattle.wit_migrate.specs.Migrates.{StandsBeside};
ghost use Rattle.wit_migrate.specs.Migrates.{deed, step_asked, step_at, weight};

use crate::step_lines::both_lines;
use std::alloc::AllocError;
use wit_core::Verifier;
use wit_grammar::LineError;
use wit_model::{Call, Cause, Fault, LockNo, Mode, RawStep, SeatNo};
use wit_world::Raw;

/// A step of a lock that goes with a call.
#[derive(Clone, Copy, Debug)]
pub struct LockStep {
    pub seat: SeatNo,
    pub lock: LockNo,
    pub step: RawStep,
    /// The mode in which a lock is taken.
    pub asked: Mode,
}

/// The step that goes with a call, if one does.
#[inline(always)]
pub fn step_beside(verifier: &Verifier, raw: &Raw, seat: SeatNo, call: &Call) -> Option<LockStep>
    ensures goes { GoesWithCall verifier.now raw.now seat.0 call.now result }
    ensures share { IfSome result (λ k. has_share raw.now (deed k) ≡ true) }
    ensures makes { IfSome result (λ k. makes_lock call.now ≡ false) }
    ensures line { (bytes : List ℕ) → IsLineOf (Logs seat.0 call.now) bytes
        → IfSome result (StandsBeside bytes) }
{
    match call {
        Call::Note(lock) => take(verifier, seat, *lock),
        Call::NoteTry(lock, mode, _) => Some(step_at(seat, *lock, RawStep::TryTake(*mode))),
        Call::Unlock(lock, _) => free(verifier, raw, seat, *lock),
        Call::Upgrade(lock) => Some(step_at(seat, *lock, RawStep::Up)),
        Call::Downgrade(lock) => turn(raw, seat, *lock),
        _ => None,
    }
}

fn step_at(seat: SeatNo, lock: LockNo, step: RawStep) -> LockStep
    ensures { result ≡ step_at seat lock step }
{
    LockStep {
        seat,
        lock,
        step,
        asked: Mode::Exclusive,
    }
}

// A lock that is asked for is taken, unless it is held by the record.
#[inline(always)]
fn take(verifier: &Verifier, seat: SeatNo, lock: LockNo) -> Option<LockStep>
    ensures taken { is_seat (state_of verifier.now) seat.0 ≡ true → result
        ≡ (if is_held seat.0 lock.0 verifier.now.history then None
        else Some (step_asked verifier.now.history seat lock)) }
    ensures does { IfSome result (Does seat lock Take) }
{
    if 0 < acquisitions(verifier, seat, lock) {
        return None;
    }
    let asked = asked_mode(verifier, seat);
    Some(LockStep {
        seat,
        lock,
        step: RawStep::Take,
        asked,
    })
}

// The mode in which a seat asked for a lock.
fn asked_mode(verifier: &Verifier, seat: SeatNo) -> Mode
    ensures { is_seat (state_of verifier.now) seat.0 ≡ true
        → result ≡ mode_asked (stage_asked (pending seat.0 verifier.now.history)) }
{
    match verifier.pending(seat) {
        Some((_, mode)) => mode,
        None => Mode::Exclusive,
    }
}

// A lock is freed where its seat has a share, and no more is recorded than it has.
#[inline(always)]
fn free(verifier: &Verifier, raw: &Raw, seat: SeatNo, lock: LockNo) -> Option<LockStep>
    ensures freed { is_seat (state_of verifier.now) seat.0 ≡ true → result
        ≡ (if is_kept verifier.now.history raw.now seat.0 lock.0 then None
        else Some (step_at seat lock Free)) }
    ensures does { IfSome result (Does seat lock Free) }
    ensures share { IfSome result (λ k. has_share raw.now (deed k) ≡ true) }
{
    let shares = raw.shares(seat, lock);
    if shares == 0 || shares < acquisitions(verifier, seat, lock) {
        return None;
    }
    Some(step_at(seat, lock, RawStep::Free))
}

// How often the seat acquired the lock by the record, without releasing it.
fn acquisitions(verifier: &Verifier, seat: SeatNo, lock: LockNo) -> u64
    ensures { is_seat (state_of verifier.now) seat.0 ≡ true
        → result ≡ num seat.0 lock.0 verifier.now.history }
{
    // Called for its clause that the log is a legal one.
    let _entries = verifier.history();
    match verifier.recorded(seat, lock) {
        Some(again) => u64::from(again) + 1,
        None => 0,
    }
}

// A lock that a seat has exclusively is turned.
fn turn(raw: &Raw, seat: SeatNo, lock: LockNo) -> Option<LockStep>
    ensures { result ≡ (if is_free raw.now (RawDown seat.0 lock.0)
        then Some (step_at seat lock Down) else None) }
{
    if 0 < raw.shares(seat, lock) && raw.is_exclusive(lock) {
        return Some(step_at(seat, lock, RawStep::Down));
    }
    None
}

/// Does the step, and tells the line with the step's, in the room of a text that has nothing: that
/// of a share that is gained stands before it, that of one that is given back behind it.
///
/// # Errors
/// `Bad` where the lock doesn't admit the step; `Memory`.
#[inline(always)]
pub fn do_beside(
    room: Vec<u8>,
    raw: &mut Raw,
    step: LockStep,
    bytes: &[u8],
) -> Result<Vec<u8>, LineError>
    requires room { room.items ≡ [] }
    requires few { weight raw.old < 2 ^ 64 - 1 }
    requires share { has_share raw.old (deed step) ≡ true }
    requires line { StandsBeside bytes.now step }
    ensures { DoesBeside step bytes.now raw.old raw.new result }
{
    if !admits(raw, step) {
        return Err(LineError::Bad(Cause::Fault(Fault::RawNotFree)));
    }
    let text = both_lines(room, step, bytes)?;
    do_step(raw, step)?;
    Ok(text)
}

// Whether the lock itself admits the step.
#[inline(always)]
fn admits(raw: &Raw, step: LockStep) -> bool
    ensures { result ≡ is_free raw.now (deed step) }
{
    match step.step {
        RawStep::Take => raw.is_admitted(step.lock, step.asked),
        RawStep::TryTake(mode) => raw.is_admitted(step.lock, mode),
        RawStep::Free => true,
        RawStep::Up => raw.is_only(step.seat, step.lock) && !raw.is_exclusive(step.lock),
        RawStep::Down => 0 < raw.shares(step.seat, step.lock) && raw.is_exclusive(step.lock),
    }
}

// Does the step.
#[inline(always)]
fn do_step(raw: &mut Raw, step: LockStep) -> Result<(), AllocError>
    requires few { weight raw.old < 2 ^ 64 - 1 }
    requires free { is_free raw.old (deed step) ≡ true }
    requires share { has_share raw.old (deed step) ≡ true }
    ensures ok { OnOk result (raw.new ≡ raw_after (deed step) raw.old) }
    ensures err { OnErr result (raw.new ≡ raw.old) }
{
    match step.step {
        RawStep::Take => gain(raw, step.seat, step.lock, step.asked)?,
        RawStep::TryTake(mode) => gain(raw, step.seat, step.lock, mode)?,
        RawStep::Free => raw.free(step.seat, step.lock),
        RawStep::Up => raw.turn(step.seat, step.lock, Mode::Exclusive),
        RawStep::Down => raw.turn(step.seat, step.lock, Mode::Shared),
    }
    Ok(())
}

// A seat gets a share more of a lock; nobody gets one of a lock that wasn't made.
fn gain(raw: &mut Raw, seat: SeatNo, lock: LockNo, mode: Mode) -> Result<(), AllocError>
    requires { shares_of raw.old seat.0 lock.0 < 2 ^ 64 - 1 }
    ensures ok { OnOk result (raw.new ≡ got seat.0 lock.0 mode raw.old) }
    ensures err { OnErr result (raw.new ≡ raw.old) }
{
    if lock.0 == 0 || raw.len() < lock.0 as usize {
        return Ok(());
    }
    raw.take(seat, lock, mode)
}
