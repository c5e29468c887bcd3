//! A circle of waiting seats, a line for each of them.

ghost use Rattle.std.specs.Prelude.{◌≡◌, ◌++◌, string_bytes, IfOk, IfErr, OnOk};
ghost use Rattle.std.specs.Option.{option_copied, option_map};
ghost use Rattle.wit_model.specs.declared.faults.Fault.TheVariants.{OutOfMemory};
ghost use Rattle.wit_model.specs.Rules.Circles.{seat_numbers};
ghost use Rattle.wit_model.specs.Rules.State.{state_of, seat_at};
ghost use Rattle.wit_model.specs.Trace.Views.{wait_line, wait_lines, circle_lines, circle_text};
ghost use Rattle.wit_model.specs.Trace.Views.{asked_name};

use crate::locks::lock_name;
use crate::pieces::{put_number, put_quoted};
use std::alloc::{AllocError, Global};
use wit_core::Verifier;
use wit_model::{Fault, SeatNo};

/// The text of a circle: each of its seats waits for the next, and the last for the first. Or that
/// there is none. A seat that asks for nothing waits for an empty name.
///
/// # Errors
/// `OutOfMemory` alone.
pub fn circle_text(
    alloc: Global,
    verifier: &Verifier,
    circle: Option<&[SeatNo]>,
) -> Result<String, Fault>
    ensures ok { IfOk result (λ text. string_bytes text
        ≡ circle_text (state_of verifier.now)
        (option_map seat_numbers (option_copied circle.entry))) }
    ensures err { IfErr result (λ e. e ≡ OutOfMemory) }
{
    let Some(seats) = circle else {
        return Ok(String::from_str(alloc, "no circle\n")?);
    };
    let mut text = String::from_str(alloc, "circle:\n")?;
    put_circle(&mut text, alloc, verifier, seats)?;
    Ok(text)
}

fn put_circle(
    text: &mut String,
    alloc: Global,
    verifier: &Verifier,
    seats: &[SeatNo],
) -> Result<(), AllocError>
    ensures { OnOk result (string_bytes text.new ≡ string_bytes text.old
        ++ circle_lines (state_of verifier.now) (seat_numbers seats.now)) }
{
    match seats {
        [] => Ok(()),
        [first, others @ ..] => put_waits(text, alloc, verifier, *first, others),
    }
}

// From the first seat by the others back to it.
fn put_waits(
    text: &mut String,
    alloc: Global,
    verifier: &Verifier,
    first: SeatNo,
    others: &[SeatNo],
) -> Result<(), AllocError>
    ensures { OnOk result (string_bytes text.new ≡ string_bytes text.old
        ++ wait_lines (state_of verifier.now) first.0 (seat_numbers others.now) first.0) }
{
    let mut seat = first;
    for next in others {
        put_wait(text, alloc, verifier, seat, *next)?;
        seat = *next;
    }
    put_wait(text, alloc, verifier, seat, first)?;
    Ok(())
}

fn put_wait(
    text: &mut String,
    alloc: Global,
    verifier: &Verifier,
    seat: SeatNo,
    next: SeatNo,
) -> Result<(), AllocError>
    ensures { OnOk result (string_bytes text.new ≡ string_bytes text.old
        ++ wait_line (state_of verifier.now) seat.0 next.0) }
{
    text.push_str(" seat ")?;
    put_number(text, alloc, seat.0 as u64)?;
    text.push_str(" waits for ")?;
    put_quoted(text, asked_name(verifier, seat))?;
    text.push_str(" held by seat ")?;
    put_number(text, alloc, next.0 as u64)?;
    text.push('\n')?;
    Ok(())
}

// The name of the lock that a seat has asked for.
fn asked_name(verifier: &Verifier, seat: SeatNo) -> &str
    ensures { result.now ≡ asked_name (state_of verifier.now).known.locks
        (seat_at (state_of verifier.now) seat.0).pending }
{
    match verifier.pending(seat) {
        Some((lock, _)) => lock_name(verifier, lock),
        None => "",
    }
}
