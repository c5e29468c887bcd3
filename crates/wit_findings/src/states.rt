//! What is known at a moment.

ghost use Rattle.std.specs.Prelude.{◌≡◌, ◌++◌, IfOk, OnOk};
ghost use Rattle.std.specs.List.{flat_map};
ghost use Rattle.std.specs.Option.{option_copied, option_map};
ghost use Rattle.wit_model.specs.Rules.Circles.{seat_numbers};
ghost use Rattle.wit_model.specs.Rules.State.{seat_at, state_of};
ghost use Rattle.wit_model.specs.Trace.Views.{mode_words};
ghost use Rattle.wit_findings.specs.Objects.{Adds, line_text};
ghost use Rattle.wit_findings.specs.States.{IsState, asks_text, circle_text, clean_line, held_line};
ghost use Rattle.wit_findings.specs.States.{is_clean_told};
ghost use Rattle.wit_findings.specs.States.{seat_text, seat_tokens, seat_values, seats_text};
ghost use Rattle.wit_findings.specs.Told.{told};

use crate::objects::{head, put_count, put_line, put_lock, put_text};
use crate::recording::Recording;
use json::Writer;
use std::alloc::{AllocError, Global};
use wit_model::{Instance, LockAt, LockNo, Mode, SeatNo, Site};
use wit_report::newest_first;
use wit_state::is_clean_so_far;

/// What is known at this moment: what seats hold and ask for, by their numbers; a circle of those that
/// wait for one another, if there is one; and whether the log is clean.
///
/// # Errors
/// Want of memory alone.
pub fn state_text(alloc: Global, known: &Recording) -> Result<Vec<u8>, AllocError>
    ensures { IfOk result (λ text. IsState (told known.now) text.items) }
{
    let Ok(circle) = known.verifier.wait_circle() else {
        return Err(AllocError);
    };
    let mut text = Vec::new(alloc);
    put_seats(&mut text, alloc, known)?;
    put_circle(&mut text, alloc, known.process, circle.as_deref())?;
    put_clean(&mut text, alloc, known.process, is_clean(known))?;
    Ok(text)
}

fn put_seats(text: &mut Vec<u8>, alloc: Global, known: &Recording) -> Result<(), AllocError>
    ensures { OnOk result (text.new.items ≡ text.old.items ++ seats_text (told known.now)) }
{
    for place in 0..known.verifier.seats() {
        put_seat(text, alloc, known, SeatNo(place + 1))?;
    }
    Ok(())
}

fn put_seat(
    text: &mut Vec<u8>,
    alloc: Global,
    known: &Recording,
    seat: SeatNo,
) -> Result<(), AllocError>
    ensures { OnOk result (text.new.items ≡ text.old.items ++ seat_text (told known.now) seat.0) }
{
    let spin = newest_first(alloc, &known.verifier, seat, true)?;
    put_all_held(text, alloc, known, seat, &spin)?;
    let sleep = newest_first(alloc, &known.verifier, seat, false)?;
    put_all_held(text, alloc, known, seat, &sleep)?;
    put_request(text, alloc, known, seat)
}

fn put_all_held(
    text: &mut Vec<u8>,
    alloc: Global,
    known: &Recording,
    seat: SeatNo,
    held: &[Instance],
) -> Result<(), AllocError>
    ensures { OnOk result (text.new.items ≡ text.old.items
        ++ flat_map (held_line (told known.now) seat.0) held.now) }
{
    match held {
        [] => Ok(()),
        [newest, others @ ..] => {
            let (lock, mode, site) = (newest.lock, newest.mode, newest.site);
            put_lock_of_seat(text, alloc, known, "held", seat, lock, mode, site)?;
            put_all_held(text, alloc, known, seat, others)
        }
    }
}

// What a seat asks for, if it does.
fn put_request(
    text: &mut Vec<u8>,
    alloc: Global,
    known: &Recording,
    seat: SeatNo,
) -> Result<(), AllocError>
    ensures { OnOk result (text.new.items ≡ text.old.items ++ asks_text (told known.now) seat.0
        (seat_at (state_of known.now.verifier) seat.0).pending) }
{
    let Some(asked) = known.verifier.request(seat) else {
        return Ok(());
    };
    let (lock, mode, site) = (asked.lock, asked.mode, asked.site);
    put_lock_of_seat(text, alloc, known, "asks", seat, lock, mode, site)
}

fn put_lock_of_seat(
    text: &mut Vec<u8>,
    alloc: Global,
    known: &Recording,
    kind: &str,
    seat: SeatNo,
    lock: LockNo,
    mode: Mode,
    site: Site,
) -> Result<(), AllocError>
    ensures { OnOk result (text.new.items ≡ text.old.items
        ++ line_text (seat_tokens (told known.now) kind.now seat.0 lock mode site)) }
{
    let mut json = head(alloc, known.process, kind)?;
    put_count(&mut json, "seat", u64::from(seat.0))?;
    put_count(&mut json, "thread", u64::from(known.thread_of(seat)))?;
    put_text(&mut json, "mode", mode_words(mode))?;
    put_lock(&mut json, known, "lock", LockAt { lock, site })?;
    json.end_object()?;
    put_line(text, json)
}

/// A mode as a word.
pub fn mode_words(mode: Mode) -> &'static str
    ensures { result.now ≡ mode_words mode }
{
    match mode {
        Mode::Shared => "shared",
        Mode::Exclusive => "exclusive",
    }
}

fn put_circle(
    text: &mut Vec<u8>,
    alloc: Global,
    process: Option<u32>,
    circle: Option<&[SeatNo]>,
) -> Result<(), AllocError>
    ensures { OnOk result (text.new.items ≡ text.old.items
        ++ circle_text process (option_map seat_numbers (option_copied circle.entry))) }
{
    let Some(seats) = circle else {
        return Ok(());
    };
    let mut json = head(alloc, process, "circle")?;
    json.key("seats")?;
    json.begin_array()?;
    put_seat_numbers(&mut json, seats)?;
    json.end_array()?;
    json.end_object()?;
    put_line(text, json)
}

fn put_seat_numbers(json: &mut Writer, seats: &[SeatNo]) -> Result<(), AllocError>
    ensures { Adds result json.old json.new (seat_values (seat_numbers seats.now)) }
{
    match seats {
        [] => Ok(()),
        [seat, others @ ..] => {
            json.u64(u64::from(seat.0))?;
            put_seat_numbers(json, others)
        }
    }
}

// Whether the log is clean, and has all that was read.
#[tactic(auto, unfolding(crate::specs::States::is_clean_told))]
fn is_clean(known: &Recording) -> bool
    ensures { result ≡ is_clean_told (told known.now) }
{
    is_clean_so_far(&known.verifier) && known.bads == 0
}

fn put_clean(
    text: &mut Vec<u8>,
    alloc: Global,
    process: Option<u32>,
    clean: bool,
) -> Result<(), AllocError>
    ensures { OnOk result (text.new.items ≡ text.old.items ++ clean_line process clean) }
{
    let mut json = head(alloc, process, "clean")?;
    json.key("clean")?;
    json.boolean(clean)?;
    json.end_object()?;
    put_line(text, json)
}
