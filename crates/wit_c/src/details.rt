//! The last report, held locks and names, as numbers and texts in C's own structures.

ghost use Rattle.std.specs.Prelude.{◌≡◌};
ghost use Rattle.wit_model.specs.Rules.State.{state_of, free};
ghost use Rattle.wit_c.specs.Numbers.{count_number, report_number};
ghost use Rattle.wit_c.specs.Places.{Asks, Fills, TellsAll, TellsSurely};
ghost use Rattle.wit_c.specs.Structures.{last_report, last_path, held_told};
ghost use Rattle.wit_c.specs.Structures.{lock_name, type_name, file_name};

use crate::kept_verifier::KeptVerifier;
use crate::numbers::{EMPTY_PLACE, count_number, report_number};
use crate::place::Place;
use crate::structures::{HeldTold, OrderTold, ReportTold, answer_told};
use std::alloc::Global;
use wit_model::{FileNo, LockNo, SeatNo, TypeNo};

/// The report that the last call made, and by which reply; all zeroes where it made none.
#[unsafe(no_mangle)]
pub extern "C" fn wit_report(alloc: Global, place: &mut Place, to: &mut ReportTold) -> i64
    ensures { Fills (λ (kept : KeptVerifier). report_number kept.last) last_report to.old to.new
        place.old.handle.value result place.new.handle.value }
{
    let Some(kept) = place.take(alloc) else {
        return EMPTY_PLACE;
    };
    *to = answer_told(&kept.verifier, &kept.last);
    let number = report_number(&kept.last);
    place.put(kept);
    number
}

/// The path of adopted orders that the report's reversal goes against, step by step, from the type
/// of the lock that was asked for to that of the held one: how many steps there are, and 0 where no
/// path leads there, or no reversal was reported.
#[unsafe(no_mangle)]
pub extern "C" fn wit_report_path(alloc: Global, place: &mut Place, to: &mut [OrderTold]) -> i64
    ensures { TellsAll last_path to.old to.new
        place.old.handle.value result place.new.handle.value }
{
    let Some(kept) = place.take(alloc) else {
        return EMPTY_PLACE;
    };
    let number = kept.tell_last_path(alloc, to);
    place.put(kept);
    number
}

/// The locks that a seat holds, in the sequence of `wit_locks_text`.
#[unsafe(no_mangle)]
pub extern "C" fn wit_held(alloc: Global, place: &mut Place, seat: u16, to: &mut [HeldTold]) -> i64
    ensures { TellsAll (held_told seat) to.old to.new
        place.old.handle.value result place.new.handle.value }
{
    let Some(kept) = place.take(alloc) else {
        return EMPTY_PLACE;
    };
    let number = kept.tell_held(alloc, SeatNo(seat), to);
    place.put(kept);
    number
}

/// How many chunks no seat has: `Verifier::free_chunks`.
#[unsafe(no_mangle)]
pub extern "C" fn wit_free_chunks(alloc: Global, place: &mut Place) -> i64
    ensures { Asks (λ s n. n ≡ count_number (free (state_of s)))
        place.old.handle.value result place.new.handle.value }
{
    let Some(kept) = place.take(alloc) else {
        return EMPTY_PLACE;
    };
    let chunks = kept.verifier.free_chunks();
    place.put(kept);
    count_number(chunks)
}

/// The name of a lock, empty under a number that was never given: `Verifier::lock_name`.
#[unsafe(no_mangle)]
pub extern "C" fn wit_lock_name(alloc: Global, place: &mut Place, lock: u32, to: &mut [u8]) -> i64
    ensures { TellsSurely (lock_name lock) to.old to.new
        place.old.handle.value result place.new.handle.value }
{
    let Some(kept) = place.take(alloc) else {
        return EMPTY_PLACE;
    };
    let number = kept.tell_lock_name(LockNo(lock), to);
    place.put(kept);
    number
}

/// The name of a type, in the same way: `Verifier::type_name`.
#[unsafe(no_mangle)]
pub extern "C" fn wit_type_name(
    alloc: Global,
    place: &mut Place,
    type_no: u16,
    to: &mut [u8],
) -> i64
    ensures { TellsSurely (type_name type_no) to.old to.new
        place.old.handle.value result place.new.handle.value }
{
    let Some(kept) = place.take(alloc) else {
        return EMPTY_PLACE;
    };
    let number = kept.tell_type_name(TypeNo(type_no), to);
    place.put(kept);
    number
}

/// The name of a source file, in the same way: `Verifier::file_name`.
#[unsafe(no_mangle)]
pub extern "C" fn wit_file_name(alloc: Global, place: &mut Place, file: u16, to: &mut [u8]) -> i64
    ensures { TellsSurely (file_name file) to.old to.new
        place.old.handle.value result place.new.handle.value }
{
    let Some(kept) = place.take(alloc) else {
        return EMPTY_PLACE;
    };
    let number = kept.tell_file_name(FileNo(file), to);
    place.put(kept);
    number
}
