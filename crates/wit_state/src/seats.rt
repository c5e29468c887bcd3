//! What each seat holds and asks for.

ghost use Rattle.std.specs.Prelude.{◌≡◌, ◌++◌, string_bytes, OnOk};
ghost use Rattle.wit_model.specs.Rules.State.{state_of, seat_at};
ghost use Rattle.wit_model.specs.Trace.Views.{mode_words};
ghost use Rattle.wit_state.specs.State.{all_seat_items, items_of_seat, held_item, held_items};
ghost use Rattle.wit_state.specs.State.{lock_fields, request_item};

use crate::fields::{put_count, put_field};
use std::alloc::{AllocError, Global};
use wit_core::Verifier;
use wit_model::{Instance, LockNo, Mode, SeatNo, Site};
use wit_report::{newest_first, put_site};

/// Adds that of all seats, by their numbers.
///
/// # Errors
/// Want of memory alone.
pub fn put_seats(text: &mut String, alloc: Global, verifier: &Verifier) -> Result<(), AllocError>
    ensures { OnOk result (string_bytes text.new ≡ string_bytes text.old
        ++ all_seat_items verifier.now) }
{
    for place in 0..verifier.seats() {
        put_seat(text, alloc, verifier, SeatNo(place + 1))?;
    }
    Ok(())
}

fn put_seat(
    text: &mut String,
    alloc: Global,
    verifier: &Verifier,
    seat: SeatNo,
) -> Result<(), AllocError>
    ensures { OnOk result (string_bytes text.new ≡ string_bytes text.old
        ++ items_of_seat verifier.now seat.0) }
{
    let spin = newest_first(alloc, verifier, seat, true)?;
    put_all_held(text, alloc, verifier, seat, &spin)?;
    let sleep = newest_first(alloc, verifier, seat, false)?;
    put_all_held(text, alloc, verifier, seat, &sleep)?;
    put_request(text, alloc, verifier, seat)
}

fn put_all_held(
    text: &mut String,
    alloc: Global,
    verifier: &Verifier,
    seat: SeatNo,
    held: &[Instance],
) -> Result<(), AllocError>
    ensures { OnOk result (string_bytes text.new ≡ string_bytes text.old
        ++ held_items verifier.now.files seat.0 held.now) }
{
    for instance in held {
        put_held(text, alloc, verifier, seat, *instance)?;
    }
    Ok(())
}

fn put_held(
    text: &mut String,
    alloc: Global,
    verifier: &Verifier,
    seat: SeatNo,
    held: Instance,
) -> Result<(), AllocError>
    ensures { OnOk result (string_bytes text.new ≡ string_bytes text.old
        ++ held_item verifier.now.files seat.0 held) }
{
    text.push_str("held")?;
    put_at(text, alloc, verifier, seat, held.lock, held.mode, held.site)
}

// What a seat asks for, if it does.
fn put_request(
    text: &mut String,
    alloc: Global,
    verifier: &Verifier,
    seat: SeatNo,
) -> Result<(), AllocError>
    ensures { OnOk result (string_bytes text.new ≡ string_bytes text.old
        ++ request_item verifier.now.files seat.0
        (seat_at (state_of verifier.now) seat.0).pending) }
{
    let Some(asked) = verifier.request(seat) else {
        return Ok(());
    };
    text.push_str("asks")?;
    put_at(
        text, alloc, verifier, seat, asked.lock, asked.mode, asked.site,
    )
}

// The fields of both.
fn put_at(
    text: &mut String,
    alloc: Global,
    verifier: &Verifier,
    seat: SeatNo,
    lock: LockNo,
    mode: Mode,
    site: Site,
) -> Result<(), AllocError>
    ensures { OnOk result (string_bytes text.new ≡ string_bytes text.old
        ++ lock_fields verifier.now.files seat.0 lock.0 mode site) }
{
    put_count(text, alloc, u64::from(seat.0))?;
    put_count(text, alloc, u64::from(lock.0))?;
    put_field(text, mode_words(mode))?;
    text.push('\t')?;
    put_site(text, alloc, verifier, site)?;
    text.push('\n')
}

fn mode_words(mode: Mode) -> &'static str
    ensures { result.now ≡ mode_words mode }
{
    match mode {
        Mode::Shared => "shared",
        Mode::Exclusive => "exclusive",
    }
}
