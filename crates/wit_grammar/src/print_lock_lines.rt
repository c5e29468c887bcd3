//! Printing the lines of one lock: what a seat asks, tells and does of it.

ghost use Rattle.std.specs.Prelude.{◌≡◌, ◌++◌, IfOk, OnOk};
ghost use Rattle.wit_model.specs.Trace.Spelling.{spelling};
ghost use Rattle.wit_model.specs.declared.lines.Line.TheVariants.{OnLock};
ghost use Rattle.wit_model.specs.declared.lines.LockLine.TheVariants.{Check, Try, Unlock, Plain};
ghost use Rattle.wit_model.specs.declared.lines.LockLine.TheVariants as lock_lines;
ghost use Rattle.wit_model.specs.declared.raw_steps.RawStep.TheVariants as raw_step;

use crate::print::call_on_lock;
use crate::put::{mode_text, put_call, put_flags, put_site, put_word};
use std::alloc::{AllocError, Global};
use wit_fields::letters;
use wit_model::{FileName, Keyword, LockLine, LockNo, Mode, OpFlags, RawStep, SeatNo, Verb};

/// A line of one lock.
pub(crate) fn spell_on_lock(alloc: Global, line: &LockLine<FileName>) -> Result<Vec<u8>, AllocError>
    ensures { IfOk result (λ bytes. bytes.items ≡ spelling (OnLock line.now)) }
{
    match line {
        LockLine::Check {
            seat,
            lock,
            mode,
            ops,
            file,
            line,
        } => spell_check(alloc, *seat, *lock, *mode, *ops, file, *line),
        LockLine::Try {
            seat,
            lock,
            mode,
            file,
            line,
        } => spell_try(alloc, *seat, *lock, *mode, file, *line),
        LockLine::Unlock { seat, lock, mode } => spell_unlock(alloc, *seat, *lock, *mode),
        LockLine::Plain { verb, seat, lock } => spell_plain(alloc, *verb, *seat, *lock),
        LockLine::Step { seat, lock, step } => spell_step(alloc, *seat, *lock, *step),
    }
}

fn spell_check(
    alloc: Global,
    seat: SeatNo,
    lock: LockNo,
    mode: Mode,
    ops: OpFlags,
    file: &FileName,
    line: u32,
) -> Result<Vec<u8>, AllocError>
    ensures { IfOk result (λ bytes. bytes.items
        ≡ spelling (OnLock (Check seat lock mode ops file.now line))) }
{
    let mut out = call_on_lock(alloc, Keyword::Check, seat, lock)?;
    put_word(&mut out, mode_text(mode))?;
    put_flags(&mut out, letters::REQUEST, ops.0)?;
    put_site(&mut out, file, line)?;
    Ok(out)
}

fn spell_plain(alloc: Global, verb: Verb, seat: SeatNo, lock: LockNo) -> Result<Vec<u8>, AllocError>
    ensures { IfOk result (λ bytes. bytes.items ≡ spelling (OnLock (Plain verb seat lock))) }
{
    call_on_lock(alloc, Keyword::Plain(verb), seat, lock)
}

fn spell_step(
    alloc: Global,
    seat: SeatNo,
    lock: LockNo,
    step: RawStep,
) -> Result<Vec<u8>, AllocError>
    ensures { IfOk result (λ bytes. bytes.items
        ≡ spelling (OnLock (lock_lines.Step seat lock step))) }
{
    let mut out = Vec::new(alloc);
    put_step(&mut out, seat, lock, step)?;
    Ok(out)
}

/// The line of a step behind what is there, without a line feed. It takes no other memory.
///
/// # Errors
/// Want of memory alone.
pub fn put_step(
    out: &mut Vec<u8>,
    seat: SeatNo,
    lock: LockNo,
    step: RawStep,
) -> Result<(), AllocError>
    ensures { OnOk result (out.new.items
        ≡ out.old.items ++ spelling (OnLock (lock_lines.Step seat lock step))) }
{
    match step {
        RawStep::Take => put_call(out, Keyword::Take, seat, lock),
        RawStep::TryTake(mode) => put_try_take(out, seat, lock, mode),
        RawStep::Free => put_call(out, Keyword::Free, seat, lock),
        RawStep::Up => put_call(out, Keyword::RawUp, seat, lock),
        RawStep::Down => put_call(out, Keyword::RawDown, seat, lock),
    }
}

fn put_try_take(out: &mut Vec<u8>, seat: SeatNo, lock: LockNo, mode: Mode) -> Result<(), AllocError>
    ensures { OnOk result (out.new.items
        ≡ out.old.items ++ spelling (OnLock (lock_lines.Step seat lock (raw_step.TryTake mode)))) }
{
    put_call(out, Keyword::TryTake, seat, lock)?;
    put_word(out, mode_text(mode))
}

fn spell_try(
    alloc: Global,
    seat: SeatNo,
    lock: LockNo,
    mode: Mode,
    file: &FileName,
    line: u32,
) -> Result<Vec<u8>, AllocError>
    ensures { IfOk result (λ bytes. bytes.items
        ≡ spelling (OnLock (Try seat lock mode file.now line))) }
{
    let mut out = call_on_lock(alloc, Keyword::Try, seat, lock)?;
    put_word(&mut out, mode_text(mode))?;
    put_site(&mut out, file, line)?;
    Ok(out)
}

fn spell_unlock(
    alloc: Global,
    seat: SeatNo,
    lock: LockNo,
    mode: Mode,
) -> Result<Vec<u8>, AllocError>
    ensures { IfOk result (λ bytes. bytes.items ≡ spelling (OnLock (Unlock seat lock mode))) }
{
    let mut out = call_on_lock(alloc, Keyword::Unlock, seat, lock)?;
    put_word(&mut out, mode_text(mode))?;
    Ok(out)
}
