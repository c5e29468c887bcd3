//! Circles of seats that wait for one another, by a table: a shortest one from the least seat from
//! which one starts.

ghost use Rattle.std.specs.Prelude.{◌≡◌, ◌<◌, ◌≤◌, true, None, length, IfOk, OnOk};
ghost use Rattle.wit_model.specs.declared.sizes.TheConstants.Limits.{MOST_SEATS};
ghost use Rattle.wit_model.specs.Rules.Circles.{TellsCircle, circle_numbers};
ghost use Rattle.wit_model.specs.Rules.Numbers.{IsNumber};
ghost use Rattle.wit_waiting.specs.Searching.{table_of, says, Says, IsTable};
ghost use Rattle.wit_waiting.specs.Searching.{seat_reached, IsTrail, IsSearch, Reaches, IsClosing};
ghost use Rattle.wit_waiting.specs.Searching.{IsCircleFrom};

use std::alloc::{AllocError, Global};
use wit_model::SeatNo;

/// Seats that wait for one another in a circle, by a table with a row for each seat (256 at most),
/// and in it a mark for each seat, which tells whether that one waits for the row's. Each waits for
/// the next, and the last for the first, which is the least of them. `None` exactly where there is
/// no such circle.
///
/// # Errors
/// Want of memory alone.
pub fn circle_in(alloc: Global, rows: &[Vec<bool>]) -> Result<Option<Vec<SeatNo>>, AllocError>
    requires table { IsTable (table_of rows.now) }
    requires few { length rows.now ≤ MOST_SEATS }
    ensures { IfOk result (λ c. TellsCircle (Says (table_of rows.now)) (circle_numbers c)) }
{
    for place in 0..rows.len() as u16 {
        if let Some(circle) = circle_from(alloc, rows, SeatNo(place + 1))? {
            return Ok(Some(circle));
        }
    }
    Ok(None)
}

// Whether such a table says that a seat waits for another.
fn says(rows: &[Vec<bool>], seat: SeatNo, other: SeatNo) -> bool
    requires table { IsTable (table_of rows.now) }
    requires seat { IsNumber (length rows.now) seat.0 }
    requires other { IsNumber (length rows.now) other.0 }
    ensures { result ≡ says (table_of rows.now) seat.0 other.0 }
{
    rows[other.0 as usize - 1][seat.0 as usize - 1]
}

// A seat that leads to the first one: it waits for the seat at the place `next` among those
// reached.
#[derive(Clone, Copy)]
struct Reached {
    seat: SeatNo,
    next: usize,
}

// A shortest circle that starts with this seat and goes through greater ones: the seats that lead
// to it are reached one after the other.
fn circle_from(
    alloc: Global,
    rows: &[Vec<bool>],
    first: SeatNo,
) -> Result<Option<Vec<SeatNo>>, AllocError>
    requires table { IsTable (table_of rows.now) }
    requires few { length rows.now ≤ MOST_SEATS }
    requires first { IsNumber (length rows.now) first.0 }
    ensures { IfOk result (IsCircleFrom (table_of rows.now) first.0) }
{
    let mut seen = vec![in alloc; false; rows.len()]?;
    seen[first.0 as usize - 1] = true;
    let mut reached = Vec::new(alloc);
    reached.push(Reached {
        seat: first,
        next: 0,
    })?;
    for place in 0..rows.len() {
        if place == reached.len() {
            return Ok(None);
        }
        if let Some(circle) = circle_at(alloc, rows, &reached, place)? {
            return Ok(Some(circle));
        }
        reach(rows, &mut reached, &mut seen, first, place)?;
    }
    Ok(None)
}

// Where the first seat waits for the one at this place: the first, and the queue from there back to
// it.
fn circle_at(
    alloc: Global,
    rows: &[Vec<bool>],
    reached: &[Reached],
    place: usize,
) -> Result<Option<Vec<SeatNo>>, AllocError>
    requires table { IsTable (table_of rows.now) }
    requires trail { IsTrail (table_of rows.now) (seat_reached reached.now 0) reached.now }
    requires place { place < length reached.now }
    ensures { IfOk result (IsClosing (table_of rows.now) reached.now place) }
{
    let first = reached[0].seat;
    if !says(rows, first, reached[place].seat) {
        return Ok(None);
    }
    let mut circle = Vec::new(alloc);
    circle.push(first)?;
    let mut at = place;
    while at > 0 {
        circle.push(reached[at].seat)?;
        at = reached[at].next;
    }
    Ok(Some(circle))
}

// Reaches all greater seats that wait for the one at this place and weren't seen.
fn reach(
    rows: &[Vec<bool>],
    reached: &mut Vec<Reached>,
    seen: &mut [bool],
    first: SeatNo,
    place: usize,
) -> Result<(), AllocError>
    requires table { IsTable (table_of rows.now) }
    requires few { length rows.now ≤ MOST_SEATS }
    requires search { IsSearch (table_of rows.now) first.0 reached.old.items seen.old }
    requires place { place < length reached.old.items }
    ensures { OnOk result (Reaches (table_of rows.now) first.0 place
        (length rows.now) reached.old.items reached.new.items seen.old seen.new) }
{
    let goal = reached[place].seat;
    for index in first.0..rows.len() as u16 {
        let seat = SeatNo(index + 1);
        if !seen[index as usize] && says(rows, seat, goal) {
            reached.push(Reached { seat, next: place })?;
            seen[index as usize] = true;
        }
    }
    Ok(())
}
