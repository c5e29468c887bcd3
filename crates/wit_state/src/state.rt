//! The whole state.

ghost use Rattle.std.specs.Prelude.{◌≡◌, string_bytes, IfOk};
ghost use Rattle.std.specs.Option.{option_copied, option_map};
ghost use Rattle.wit_model.specs.Rules.Circles.{seat_numbers};
ghost use Rattle.wit_state.specs.State.{state_text};

use crate::circles::put_circle;
use crate::clean::put_clean;
use crate::orders::put_orders;
use crate::seats::put_seats;
use std::alloc::{AllocError, Global};
use wit_core::Verifier;
use wit_model::SeatNo;

/// What a verifier knows, in lines whose fields are parted by tabs:
///
/// - `clean WHY`: whether its log is clean, in the words of `clean_text`;
/// - `order TYPE TYPE PLACE`, for each direct order, by the numbers of the types: where it was first
///   asked for, or `listed`, or `defined`;
/// - `held SEAT LOCK MODE PLACE`, for each lock that a seat holds, by the seats' numbers, newest first,
///   where those of the spin kind come first: where it was acquired last;
/// - `asks SEAT LOCK MODE PLACE`, after what the seat holds: what it asks for, and where;
/// - `circle SEAT SEAT ..`, if there is one: each of them waits for the next, and the last for the first.
///
/// # Errors
/// Want of memory alone.
pub fn state_text(
    alloc: Global,
    verifier: &Verifier,
    line: u64,
    circle: Option<&[SeatNo]>,
) -> Result<String, AllocError>
    ensures { IfOk result (λ text. string_bytes text
        ≡ state_text verifier.now line (option_map seat_numbers (option_copied circle.entry))) }
{
    let mut text = String::from_str(alloc, "clean\t")?;
    put_clean(&mut text, alloc, verifier, line)?;
    put_orders(&mut text, alloc, verifier)?;
    put_seats(&mut text, alloc, verifier)?;
    put_circle(&mut text, alloc, circle)?;
    Ok(text)
}
