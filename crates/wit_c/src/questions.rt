//! What is asked of a verifier, and what isn't logged.

ghost use Rattle.std.specs.Prelude.{◌≡◌, pos, Ok};
ghost use Rattle.std.specs.Option.{option_map};
ghost use Rattle.wit_core.specs.Numbered.{lock_type};
ghost use Rattle.wit_model.specs.declared.locks.TypeNo.{TypeNo};
ghost use Rattle.wit_model.specs.declared.locks.Watch.TheVariants.{On};
ghost use Rattle.wit_model.specs.Rules.Assertions.{assertion, step_assert};
ghost use Rattle.wit_model.specs.Rules.History.{reports_of, watch_of};
ghost use Rattle.wit_model.specs.Rules.State.{state_of, typed_locks};
ghost use Rattle.wit_model.specs.Rules.Warnings.{step_warn};
ghost use Rattle.wit_c.specs.Numbers.{asserted_number, counted_number, watch_number, lock_in};
ghost use Rattle.wit_c.specs.Numbers.{optional_number, holding_in};
ghost use Rattle.wit_c.specs.Places.{Asks, Names};
ghost use Rattle.wit_c.specs.Texts.{file_name_in};

use crate::numbers::{
    EMPTY_PLACE, asserted_number, counted_number, holding_in, lock_in, watch_number,
};
use crate::place::Place;
use crate::texts::file_name_in;
use std::alloc::Global;
use wit_held::asserted;
use wit_model::{LockAssert, LockNo, SeatNo, WarnFlags};

/// The number of a source file: `Verifier::file`.
#[unsafe(no_mangle)]
pub extern "C" fn wit_file(alloc: Global, place: &mut Place, name: &[u8]) -> i64
    ensures { Names (file_name_in name.now)
        place.old.handle.value result place.new.handle.value }
{
    let Some(mut kept) = place.take(alloc) else {
        return EMPTY_PLACE;
    };
    let number = kept.name_file(file_name_in(name));
    place.put(kept);
    number
}

/// A seat asserts how it holds a lock, or that it doesn't: `Verifier::assert_lock`.
#[unsafe(no_mangle)]
pub extern "C" fn wit_assert(
    alloc: Global,
    place: &mut Place,
    seat: u16,
    lock: u32,
    flags: u8,
) -> i64
    ensures { Asks (λ s n. n ≡ asserted_number
        (step_assert (state_of s) seat lock (record { 0 = flags })))
        place.old.handle.value result place.new.handle.value }
{
    let Some(kept) = place.take(alloc) else {
        return EMPTY_PLACE;
    };
    let answer = kept
        .verifier
        .assert_lock(SeatNo(seat), LockNo(lock), LockAssert(flags));
    place.put(kept);
    asserted_number(answer)
}

/// What an assertion comes to about a lock that is held so, or isn't, where all is watched: it was
/// acquired again so many times. No verifier is asked.
#[unsafe(no_mangle)]
pub extern "C" fn wit_asserted(held: bool, exclusive: bool, count: u16, flags: u8) -> i64
    ensures { result ≡ asserted_number
        (Ok (assertion On (record { 0 = flags }) (holding_in held exclusive count))) }
{
    let holding = holding_in(held, exclusive, count);
    asserted_number(Ok(asserted(holding, LockAssert(flags))))
}

/// How many locks a seat holds where it should hold none but the named one, where 0 names none, or
/// such as the flags allow: `Verifier::warn`.
#[unsafe(no_mangle)]
pub extern "C" fn wit_warn(
    alloc: Global,
    place: &mut Place,
    seat: u16,
    named: u32,
    flags: u8,
) -> i64
    ensures { Asks (λ s n. n ≡ counted_number
        (step_warn (state_of s) seat (lock_in named) (record { 0 = flags })))
        place.old.handle.value result place.new.handle.value }
{
    let Some(kept) = place.take(alloc) else {
        return EMPTY_PLACE;
    };
    let answer = kept
        .verifier
        .warn(SeatNo(seat), lock_in(named), WarnFlags(flags));
    place.put(kept);
    counted_number(answer)
}

/// How many reports the log has: `Verifier::reports`.
#[unsafe(no_mangle)]
pub extern "C" fn wit_reports(alloc: Global, place: &mut Place) -> i64
    ensures { Asks (λ s n. n ≡ pos (reports_of s.history))
        place.old.handle.value result place.new.handle.value }
{
    let Some(kept) = place.take(alloc) else {
        return EMPTY_PLACE;
    };
    let reports = kept.verifier.reports();
    place.put(kept);
    reports as i64
}

/// How much is watched: `Verifier::watch`.
#[unsafe(no_mangle)]
pub extern "C" fn wit_watch(alloc: Global, place: &mut Place) -> i64
    ensures { Asks (λ s n. n ≡ watch_number (watch_of s.history))
        place.old.handle.value result place.new.handle.value }
{
    let Some(kept) = place.take(alloc) else {
        return EMPTY_PLACE;
    };
    let watch = kept.verifier.watch();
    place.put(kept);
    watch_number(watch)
}

/// The number of a lock's type, or 0: `Verifier::type_of`.
#[unsafe(no_mangle)]
pub extern "C" fn wit_type_of(alloc: Global, place: &mut Place, lock: u32) -> i64
    ensures { Asks (λ s n. n ≡ optional_number (option_map (λ (type_no : TypeNo). type_no.0)
        (lock_type (typed_locks s.start s.history) lock)))
        place.old.handle.value result place.new.handle.value }
{
    let Some(kept) = place.take(alloc) else {
        return EMPTY_PLACE;
    };
    let number = match kept.verifier.type_of(LockNo(lock)) {
        Some(number) => number.0 as i64,
        None => 0,
    };
    place.put(kept);
    number
}
