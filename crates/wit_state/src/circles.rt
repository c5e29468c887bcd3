//! A circle of seats that wait for one another.

ghost use Rattle.std.specs.Prelude.{◌≡◌, ◌++◌, string_bytes, OnOk};
ghost use Rattle.std.specs.Option.{option_copied, option_map};
ghost use Rattle.wit_model.specs.Rules.Circles.{seat_numbers};
ghost use Rattle.wit_state.specs.State.{circle_item, seat_fields};

use crate::fields::put_count;
use std::alloc::{AllocError, Global};
use wit_model::SeatNo;

/// Adds the seats of a circle, if there is one.
///
/// # Errors
/// Want of memory alone.
pub fn put_circle(
    text: &mut String,
    alloc: Global,
    circle: Option<&[SeatNo]>,
) -> Result<(), AllocError>
    ensures { OnOk result (string_bytes text.new ≡ string_bytes text.old
        ++ circle_item (option_map seat_numbers (option_copied circle.entry))) }
{
    let Some(seats) = circle else {
        return Ok(());
    };
    text.push_str("circle")?;
    put_seats(text, alloc, seats)?;
    text.push('\n')
}

fn put_seats(text: &mut String, alloc: Global, seats: &[SeatNo]) -> Result<(), AllocError>
    ensures { OnOk result (string_bytes text.new ≡ string_bytes text.old
        ++ seat_fields (seat_numbers seats.now)) }
{
    let mut rest = seats;
    while let Some((seat, others)) = rest.split_first() {
        put_count(text, alloc, u64::from(seat.0))?;
        rest = others;
    }
    Ok(())
}
