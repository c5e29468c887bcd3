//! The texts of reports and views, and lists of seats and types, in buffers of C's own.

ghost use Rattle.wit_c.specs.Places.{Tells, TellsAll};
ghost use Rattle.wit_c.specs.Views.{last_text, locks_text, all_locks_text, graph_text};
ghost use Rattle.wit_c.specs.Views.{TellsWarning, path_types, TellsAssertion, TellsSeats};
ghost use Rattle.wit_c.specs.Views.{TellsCircleText};

use crate::numbers::EMPTY_PLACE;
use crate::place::Place;
use std::alloc::Global;
use wit_model::{LockAssert, LockNo, SeatNo, TypeNo, WarnFlags};

/// The text of the report that the last call made, empty where it made none: `report_text`.
#[unsafe(no_mangle)]
pub extern "C" fn wit_report_text(alloc: Global, place: &mut Place, to: &mut [u8]) -> i64
    ensures { TellsAll last_text to.old to.new
        place.old.handle.value result place.new.handle.value }
{
    let Some(kept) = place.take(alloc) else {
        return EMPTY_PLACE;
    };
    let number = kept.tell_last(alloc, to);
    place.put(kept);
    number
}

/// The text of what an assertion comes to, empty where it holds: `assert_text`.
#[unsafe(no_mangle)]
pub extern "C" fn wit_assert_text(
    alloc: Global,
    place: &mut Place,
    seat: u16,
    lock: u32,
    flags: u8,
    to: &mut [u8],
) -> i64
    ensures { Tells (TellsAssertion seat lock (record { 0 = flags })) to.old to.new
        place.old.handle.value result place.new.handle.value }
{
    let Some(kept) = place.take(alloc) else {
        return EMPTY_PLACE;
    };
    let number = kept.tell_assertion(alloc, SeatNo(seat), LockNo(lock), LockAssert(flags), to);
    place.put(kept);
    number
}

/// The text of a warning, empty where a seat is warned of no lock: `warn_text`.
#[unsafe(no_mangle)]
pub extern "C" fn wit_warn_text(
    alloc: Global,
    place: &mut Place,
    seat: u16,
    named: u32,
    flags: u8,
    to: &mut [u8],
) -> i64
    ensures { Tells (TellsWarning seat named (record { 0 = flags })) to.old to.new
        place.old.handle.value result place.new.handle.value }
{
    let Some(kept) = place.take(alloc) else {
        return EMPTY_PLACE;
    };
    let number = kept.tell_warning(alloc, SeatNo(seat), named, WarnFlags(flags), to);
    place.put(kept);
    number
}

/// The locks that a seat holds, a line each: `locks_of`.
#[unsafe(no_mangle)]
pub extern "C" fn wit_locks_text(alloc: Global, place: &mut Place, seat: u16, to: &mut [u8]) -> i64
    ensures { TellsAll (locks_text seat) to.old to.new
        place.old.handle.value result place.new.handle.value }
{
    let Some(kept) = place.take(alloc) else {
        return EMPTY_PLACE;
    };
    let number = kept.tell_locks(alloc, SeatNo(seat), to);
    place.put(kept);
    number
}

/// The locks of each seat that holds any: `all_locks`.
#[unsafe(no_mangle)]
pub extern "C" fn wit_all_locks_text(alloc: Global, place: &mut Place, to: &mut [u8]) -> i64
    ensures { TellsAll all_locks_text to.old to.new
        place.old.handle.value result place.new.handle.value }
{
    let Some(kept) = place.take(alloc) else {
        return EMPTY_PLACE;
    };
    let number = kept.tell_all_locks(alloc, to);
    place.put(kept);
    number
}

/// The direct orders, a line each: `graph`.
#[unsafe(no_mangle)]
pub extern "C" fn wit_graph_text(alloc: Global, place: &mut Place, to: &mut [u8]) -> i64
    ensures { TellsAll graph_text to.old to.new
        place.old.handle.value result place.new.handle.value }
{
    let Some(kept) = place.take(alloc) else {
        return EMPTY_PLACE;
    };
    let number = kept.tell_graph(alloc, to);
    place.put(kept);
    number
}

/// The seats of a circle of those that wait for one another, from the least one: how many there
/// are, and 0 exactly where no seats wait so: `Verifier::wait_circle`.
#[unsafe(no_mangle)]
pub extern "C" fn wit_circle(alloc: Global, place: &mut Place, to: &mut [u16]) -> i64
    ensures { Tells TellsSeats to.old to.new
        place.old.handle.value result place.new.handle.value }
{
    let Some(kept) = place.take(alloc) else {
        return EMPTY_PLACE;
    };
    let number = kept.tell_seats(alloc, to);
    place.put(kept);
    number
}

/// The text of such a circle, or that there is none: `circle_text`.
#[unsafe(no_mangle)]
pub extern "C" fn wit_circle_text(alloc: Global, place: &mut Place, to: &mut [u8]) -> i64
    ensures { Tells TellsCircleText to.old to.new
        place.old.handle.value result place.new.handle.value }
{
    let Some(kept) = place.take(alloc) else {
        return EMPTY_PLACE;
    };
    let number = kept.tell_circle(alloc, to);
    place.put(kept);
    number
}

/// The types on the path of adopted orders from one type to another: how many there are, and 0
/// where none leads there: `Verifier::path`.
#[unsafe(no_mangle)]
pub extern "C" fn wit_path(
    alloc: Global,
    place: &mut Place,
    from: u16,
    goal: u16,
    to: &mut [u16],
) -> i64
    ensures { TellsAll (path_types from goal) to.old to.new
        place.old.handle.value result place.new.handle.value }
{
    let Some(kept) = place.take(alloc) else {
        return EMPTY_PLACE;
    };
    let number = kept.tell_path(alloc, TypeNo(from), TypeNo(goal), to);
    place.put(kept);
    number
}
