//! The locks that seats hold, a line each.

ghost use Rattle.std.specs.Prelude.{◌≡◌, ◌++◌, nat_lt, length, reverse, string_bytes, IfOk, IfErr};
ghost use Rattle.std.specs.Prelude.{OnOk};
ghost use Rattle.std.specs.List.{flat_map, range_with_len};
ghost use Rattle.wit_model.specs.declared.faults.Fault.TheVariants.{OutOfMemory};
ghost use Rattle.wit_model.specs.Rules.State.{state_of, seat_at, chain_in, typed_locks};
ghost use Rattle.wit_model.specs.Trace.Views.{mode_words, held_line, held_lines, all_held};
ghost use Rattle.wit_model.specs.Trace.Views.{locks_text, holder_text, all_locks_text};
ghost use Rattle.wit_report.specs.Wants.{WantsMemory};

use crate::locks::{class_of_lock, class_words, lock_name, type_name};
use crate::pieces::{put_number, put_quoted, put_site};
use std::alloc::{AllocError, Global};
use wit_core::Verifier;
use wit_model::chunks::{Lists, list_of};
use wit_model::{Fault, Instance, Mode, SeatNo};

/// The locks that a seat holds, a line each, as `show locks` of witness(4): those of the sleep
/// kind, then those of the spin kind, newest first. Empty for a seat that there isn't.
///
/// # Errors
/// `OutOfMemory` alone, and only where the text isn't empty.
pub fn locks_of(alloc: Global, verifier: &Verifier, seat: SeatNo) -> Result<String, Fault>
    ensures ok { IfOk result (λ text. string_bytes text ≡ locks_text verifier.now seat.0) }
    ensures err { IfErr result (WantsMemory (locks_text verifier.now seat.0)) }
{
    let mut text = String::new(alloc);
    if !holds_any(verifier, seat) {
        return Ok(text);
    }
    put_seat(&mut text, alloc, verifier, seat)?;
    Ok(text)
}

/// The locks of each seat that holds any, behind the seat's number, as `show all locks` of
/// witness(4); and how many chunks are free.
///
/// # Errors
/// `OutOfMemory` alone.
pub fn all_locks(alloc: Global, verifier: &Verifier) -> Result<String, Fault>
    ensures ok { IfOk result (λ text. string_bytes text ≡ all_locks_text verifier.now) }
    ensures err { IfErr result (λ e. e ≡ OutOfMemory) }
{
    let mut text = String::new(alloc);
    put_holders(&mut text, alloc, verifier)?;
    text.push_str("free chunks: ")?;
    put_number(&mut text, alloc, verifier.free_chunks() as u64)?;
    text.push('\n')?;
    Ok(text)
}

fn put_holders(text: &mut String, alloc: Global, verifier: &Verifier) -> Result<(), AllocError>
    ensures { OnOk result (string_bytes text.new ≡ string_bytes text.old
        ++ flat_map (holder_text verifier.now) (range_with_len 1 verifier.now.start.sizes.seats)) }
{
    for place in 0..verifier.seats() {
        put_holder(text, alloc, verifier, SeatNo(place + 1))?;
    }
    Ok(())
}

// A seat's locks behind its number, where it holds any.
fn put_holder(
    text: &mut String,
    alloc: Global,
    verifier: &Verifier,
    seat: SeatNo,
) -> Result<(), AllocError>
    ensures { OnOk result (string_bytes text.new ≡ string_bytes text.old
        ++ holder_text verifier.now seat.0) }
{
    if !holds_any(verifier, seat) {
        return Ok(());
    }
    text.push_str("seat ")?;
    put_number(text, alloc, seat.0 as u64)?;
    text.push_str(" holds:\n")?;
    put_seat(text, alloc, verifier, seat)?;
    Ok(())
}

fn holds_any(verifier: &Verifier, seat: SeatNo) -> bool
    ensures { result ≡ nat_lt 0 (length (all_held (seat_at (state_of verifier.now) seat.0))) }
{
    verifier.chain_at(seat, false, 0).is_some() || verifier.chain_at(seat, true, 0).is_some()
}

fn put_seat(
    text: &mut String,
    alloc: Global,
    verifier: &Verifier,
    seat: SeatNo,
) -> Result<(), AllocError>
    ensures { OnOk result (string_bytes text.new ≡ string_bytes text.old
        ++ locks_text verifier.now seat.0) }
{
    let sleep = newest_first(alloc, verifier, seat, false)?;
    put_all(text, alloc, verifier, &sleep)?;
    let spin = newest_first(alloc, verifier, seat, true)?;
    put_all(text, alloc, verifier, &spin)?;
    Ok(())
}

/// The locks of one kind that a seat holds, newest first; none for a seat that there isn't.
///
/// # Errors
/// Want of memory alone.
pub fn newest_first(
    alloc: Global,
    verifier: &Verifier,
    seat: SeatNo,
    spin: bool,
) -> Result<Vec<Instance>, AllocError>
    ensures { IfOk result (λ held. held.items
        ≡ reverse (chain_in spin (seat_at (state_of verifier.now) seat.0))) }
{
    let mut held = Vec::new(alloc);
    if seat.0 == 0 || verifier.seats() < seat.0 {
        return Ok(held);
    }
    // In a legal log, the groups in which a chain lies make up the chain.
    let _log = verifier.history();
    let lists = verifier.chunks();
    let list = list_of(seat, spin);
    let mut spot = lists.newest(list);
    while let Some(at) = spot {
        add_group(&mut held, lists.group(list, at))?;
        spot = lists.older(list, at);
    }
    Ok(held)
}

// Adds the locks of a chunk, newest first.
fn add_group(held: &mut Vec<Instance>, group: &[Instance]) -> Result<(), AllocError>
    ensures { OnOk result (held.new.items ≡ held.old.items ++ reverse group.now) }
{
    for newer in 0..group.len() {
        held.push(group[group.len() - 1 - newer])?;
    }
    Ok(())
}

/// Adds a line for each of these held locks.
///
/// # Errors
/// Want of memory alone.
pub fn put_all(
    text: &mut String,
    alloc: Global,
    verifier: &Verifier,
    held: &[Instance],
) -> Result<(), AllocError>
    ensures { OnOk result (string_bytes text.new ≡ string_bytes text.old
        ++ held_lines (typed_locks verifier.now.start verifier.now.history)
        verifier.now.files held.now) }
{
    for instance in held {
        put_held(text, alloc, verifier, *instance)?;
    }
    Ok(())
}

// A held lock, as a line.
fn put_held(
    text: &mut String,
    alloc: Global,
    verifier: &Verifier,
    held: Instance,
) -> Result<(), AllocError>
    ensures { OnOk result (string_bytes text.new ≡ string_bytes text.old
        ++ held_line (typed_locks verifier.now.start verifier.now.history)
        verifier.now.files held) }
{
    text.push_str(mode_words(held.mode))?;
    text.push(' ')?;
    text.push_str(class_words(class_of_lock(verifier, held.lock)))?;
    text.push(' ')?;
    put_quoted(text, lock_name(verifier, held.lock))?;
    text.push_str(" (")?;
    text.push_str(type_name(verifier, held.lock))?;
    text.push_str(") r = ")?;
    put_number(text, alloc, held.count as u64)?;
    text.push_str(" @ ")?;
    put_site(text, alloc, verifier, held.site)?;
    text.push('\n')?;
    Ok(())
}

fn mode_words(mode: Mode) -> &'static str
    ensures { result.now ≡ mode_words mode }
{
    match mode {
        Mode::Shared => "shared",
        Mode::Exclusive => "exclusive",
    }
}
