//! The text of a warning.

ghost use Rattle.std.specs.Prelude.{◌≡◌, ◌++◌, not, [], filter, reverse, string_bytes};
ghost use Rattle.std.specs.Prelude.{if◌then◌else◌, IfOk, IfErr, OnOk};
ghost use Rattle.wit_model.specs.declared.locks.Instance.{Instance};
ghost use Rattle.wit_model.specs.declared.faults.Fault.TheVariants.{OutOfMemory};
ghost use Rattle.wit_model.specs.Rules.State.{state_of, known_of, typed_locks};
ghost use Rattle.wit_model.specs.Rules.Verdict.{basis_of};
ghost use Rattle.wit_model.specs.Rules.Warnings.{is_lock_named, is_allowed, counted_spin, warned};
ghost use Rattle.wit_model.specs.Trace.Views.{warn_text};
ghost use Rattle.wit_report.specs.Wants.{WantsMemory};

use crate::held::{newest_first, put_all};
use crate::pieces::put_number;
use std::alloc::{AllocError, Global};
use wit_core::Verifier;
use wit_model::{Fault, Instance, LockNo, SeatNo, WarnFlags};

/// The text of a warning: how many held locks the seat is warned of, as `witness_warn`
/// (subr_witness.c) tells them, and a line for each, in the order of `locks_of`. Empty where it is
/// warned of none.
///
/// # Errors
/// `OutOfMemory` alone, and only where the text isn't empty.
pub fn warn_text(
    alloc: Global,
    verifier: &Verifier,
    seat: SeatNo,
    named: Option<LockNo>,
    flags: WarnFlags,
) -> Result<String, Fault>
    ensures ok { IfOk result (λ text. string_bytes text
        ≡ warn_text (typed_locks verifier.now.start verifier.now.history) verifier.now.files
        (warned (state_of verifier.now) seat.0 named flags)) }
    ensures err { IfErr result (WantsMemory
        (warn_text (typed_locks verifier.now.start verifier.now.history) verifier.now.files
        (warned (state_of verifier.now) seat.0 named flags))) }
{
    if verifier.warned(seat, named, flags) == 0 {
        return Ok(String::new(alloc));
    }
    warned_text(alloc, verifier, seat, named, flags)
}

/// The text of a warning, as `warn_text` tells it, for who has counted the locks: it counts none
/// beforehand, and so may want memory where the text is empty.
///
/// # Errors
/// `OutOfMemory` alone.
pub fn warned_text(
    alloc: Global,
    verifier: &Verifier,
    seat: SeatNo,
    named: Option<LockNo>,
    flags: WarnFlags,
) -> Result<String, Fault>
    ensures ok { IfOk result (λ text. string_bytes text
        ≡ warn_text (typed_locks verifier.now.start verifier.now.history) verifier.now.files
        (warned (state_of verifier.now) seat.0 named flags)) }
    ensures err { IfErr result (λ e. e ≡ OutOfMemory) }
{
    let mut text = String::new(alloc);
    let held = warned(alloc, verifier, seat, named, flags)?;
    if held.is_empty() {
        return Ok(text);
    }
    put_number(&mut text, alloc, held.len() as u64)?;
    text.push_str(" locks held:\n")?;
    put_all(&mut text, alloc, verifier, &held)?;
    Ok(text)
}

// The locks of which the seat is warned.
fn warned(
    alloc: Global,
    verifier: &Verifier,
    seat: SeatNo,
    named: Option<LockNo>,
    flags: WarnFlags,
) -> Result<Vec<Instance>, AllocError>
    ensures { IfOk result (λ held. held.items ≡ warned (state_of verifier.now) seat.0 named flags) }
{
    let mut held = Vec::new(alloc);
    if !verifier.watch().is_on() {
        return Ok(held);
    }
    let sleep = newest_first(alloc, verifier, seat, false)?;
    add_counted(&mut held, verifier, &sleep, named, flags)?;
    let spin = newest_first(alloc, verifier, seat, true)?;
    if held.is_empty() && is_alone(&spin, named) {
        return Ok(held);
    }
    add_all(&mut held, &spin)?;
    Ok(held)
}

// Adds those that the seat is warned of, of the sleep kind.
fn add_counted(
    held: &mut Vec<Instance>,
    verifier: &Verifier,
    sleep: &[Instance],
    named: Option<LockNo>,
    flags: WarnFlags,
) -> Result<(), AllocError>
    ensures { OnOk result (held.new.items ≡ held.old.items ++ filter
        (λ (each : Instance). not (is_allowed
        (basis_of (known_of verifier.now.start verifier.now.history)) named flags each))
        sleep.now) }
{
    for instance in sleep {
        if !verifier.is_allowed(*instance, named, flags) {
            held.push(*instance)?;
        }
    }
    Ok(())
}

fn add_all(held: &mut Vec<Instance>, spin: &[Instance]) -> Result<(), AllocError>
    ensures { OnOk result (held.new.items ≡ held.old.items ++ spin.now) }
{
    for instance in spin {
        held.push(*instance)?;
    }
    Ok(())
}

// Whether there is one lock, and it is the named one: so it isn't counted where nothing else is.
fn is_alone(spin: &[Instance], named: Option<LockNo>) -> bool
    ensures { counted_spin named [] (reverse spin.now) ≡ if result then [] else reverse spin.now }
{
    match spin {
        [instance] => is_named(named, *instance),
        _ => false,
    }
}

fn is_named(named: Option<LockNo>, held: Instance) -> bool
    ensures { result ≡ is_lock_named named held }
{
    match named {
        Some(lock) => held.lock.0 == lock.0,
        None => false,
    }
}
