//! The calls that the log keeps.

ghost use Rattle.std.specs.Prelude.{◌≡◌, None, IfSome};
ghost use Rattle.wit_core.specs.Replies.{new_lock};
ghost use Rattle.wit_model.specs.declared.calls.Call.TheVariants.{Init, Check, Note, NoteTry};
ghost use Rattle.wit_model.specs.declared.calls.Call.TheVariants.{GiveUp, Unlock, SetWatch};
ghost use Rattle.wit_model.specs.declared.calls.Call.TheVariants.{Destroy, Upgrade, Downgrade};
ghost use Rattle.wit_model.specs.declared.calls.Call.TheVariants.{NoRelease, ReleaseOk};
ghost use Rattle.wit_model.specs.declared.calls.Call.TheVariants.{DefineOrder};
ghost use Rattle.wit_c.specs.Numbers.{mode_in, class_in, watch_in, site_in, no_such};
ghost use Rattle.wit_c.specs.Places.{Calls, CallsSurely, Asks};
ghost use Rattle.wit_c.specs.Texts.{name_in, type_name_in};

use crate::numbers::{EMPTY_PLACE, NO_SUCH, class_in, mode_in, site_in, watch_in};
use crate::place::Place;
use crate::texts::{name_in, type_name_in};
use std::alloc::Global;
use wit_model::{Call, LockFlags, LockNo, OpFlags, Request, SeatNo};

/// A lock is made, and its number told: `Verifier::init`. A type's name of no byte stands for the
/// lock's own name.
#[unsafe(no_mangle)]
pub extern "C" fn wit_init(
    alloc: Global,
    place: &mut Place,
    seat: u16,
    name: &[u8],
    type_name: &[u8],
    class: u8,
    flags: u8,
) -> i64
    ensures made { IfSome (class_in class) (λ c. Calls seat (Init (new_lock (name_in name.now)
        (type_name_in type_name.now) c (record { 0 = flags })))
        place.old.handle.value result place.new.handle.value) }
    ensures refused { class_in class ≡ None
        → Asks (λ _ n. n ≡ no_such) place.old.handle.value result place.new.handle.value }
{
    let Some(mut kept) = place.take(alloc) else {
        return EMPTY_PLACE;
    };
    let number = match class_in(class) {
        Some(class) => kept.init(
            SeatNo(seat),
            name_in(name),
            type_name_in(type_name),
            class,
            LockFlags(flags),
        ),
        None => NO_SUCH,
    };
    place.put(kept);
    number
}

/// A lock is no more: `Verifier::destroy`.
#[unsafe(no_mangle)]
pub extern "C" fn wit_destroy(alloc: Global, place: &mut Place, seat: u16, lock: u32) -> i64
    ensures { Calls seat (Destroy (record { 0 = lock }))
        place.old.handle.value result place.new.handle.value }
{
    place.call(alloc, SeatNo(seat), Call::Destroy(LockNo(lock)))
}

/// A seat asks for a lock: `Verifier::check`.
#[unsafe(no_mangle)]
pub extern "C" fn wit_check(
    alloc: Global,
    place: &mut Place,
    seat: u16,
    lock: u32,
    exclusive: bool,
    ops: u8,
    file: u16,
    line: u32,
) -> i64
    ensures { Calls seat (Check (record {
      lock = record { 0 = lock };
      site = site_in file line;
      mode = mode_in exclusive;
      ops = record { 0 = ops };
    })) place.old.handle.value result place.new.handle.value }
{
    let request = Request {
        lock: LockNo(lock),
        site: site_in(file, line),
        mode: mode_in(exclusive),
        ops: OpFlags(ops),
    };
    place.call(alloc, SeatNo(seat), Call::Check(request))
}

/// A seat has the lock that it asked for: `Verifier::note`.
#[unsafe(no_mangle)]
pub extern "C" fn wit_note(alloc: Global, place: &mut Place, seat: u16, lock: u32) -> i64
    ensures { CallsSurely seat (Note (record { 0 = lock }))
        place.old.handle.value result place.new.handle.value }
{
    let Some(mut kept) = place.take(alloc) else {
        return EMPTY_PLACE;
    };
    let answer = kept.verifier.note(SeatNo(seat), LockNo(lock));
    let number = kept.keep(answer);
    place.put(kept);
    number
}

/// A seat has a lock for which it didn't wait: `Verifier::note_try`.
#[unsafe(no_mangle)]
pub extern "C" fn wit_note_try(
    alloc: Global,
    place: &mut Place,
    seat: u16,
    lock: u32,
    exclusive: bool,
    file: u16,
    line: u32,
) -> i64
    ensures { Calls seat (NoteTry (record { 0 = lock }) (mode_in exclusive) (site_in file line))
        place.old.handle.value result place.new.handle.value }
{
    let call = Call::NoteTry(LockNo(lock), mode_in(exclusive), site_in(file, line));
    place.call(alloc, SeatNo(seat), call)
}

/// A seat asks no longer for the lock that it asked for: `Verifier::give_up`.
#[unsafe(no_mangle)]
pub extern "C" fn wit_give_up(alloc: Global, place: &mut Place, seat: u16, lock: u32) -> i64
    ensures { CallsSurely seat (GiveUp (record { 0 = lock }))
        place.old.handle.value result place.new.handle.value }
{
    let Some(mut kept) = place.take(alloc) else {
        return EMPTY_PLACE;
    };
    let answer = kept.verifier.give_up(SeatNo(seat), LockNo(lock));
    let number = kept.keep(answer);
    place.put(kept);
    number
}

/// A seat lets a lock go: `Verifier::unlock`.
#[unsafe(no_mangle)]
pub extern "C" fn wit_unlock(
    alloc: Global,
    place: &mut Place,
    seat: u16,
    lock: u32,
    exclusive: bool,
) -> i64
    ensures { CallsSurely seat (Unlock (record { 0 = lock }) (mode_in exclusive))
        place.old.handle.value result place.new.handle.value }
{
    let Some(mut kept) = place.take(alloc) else {
        return EMPTY_PLACE;
    };
    let mode = mode_in(exclusive);
    let answer = kept.verifier.unlock(SeatNo(seat), LockNo(lock), mode);
    let number = kept.keep(answer);
    place.put(kept);
    number
}

/// A seat has alone, from now on, what it has with others: `Verifier::upgrade`.
#[unsafe(no_mangle)]
pub extern "C" fn wit_upgrade(alloc: Global, place: &mut Place, seat: u16, lock: u32) -> i64
    ensures { Calls seat (Upgrade (record { 0 = lock }))
        place.old.handle.value result place.new.handle.value }
{
    place.call(alloc, SeatNo(seat), Call::Upgrade(LockNo(lock)))
}

/// A seat has with others, from now on, what it has alone: `Verifier::downgrade`.
#[unsafe(no_mangle)]
pub extern "C" fn wit_downgrade(alloc: Global, place: &mut Place, seat: u16, lock: u32) -> i64
    ensures { Calls seat (Downgrade (record { 0 = lock }))
        place.old.handle.value result place.new.handle.value }
{
    place.call(alloc, SeatNo(seat), Call::Downgrade(LockNo(lock)))
}

/// A seat must not let a lock go: `Verifier::norelease`.
#[unsafe(no_mangle)]
pub extern "C" fn wit_norelease(alloc: Global, place: &mut Place, seat: u16, lock: u32) -> i64
    ensures { Calls seat (NoRelease (record { 0 = lock }))
        place.old.handle.value result place.new.handle.value }
{
    place.call(alloc, SeatNo(seat), Call::NoRelease(LockNo(lock)))
}

/// A seat may let it go again: `Verifier::releaseok`.
#[unsafe(no_mangle)]
pub extern "C" fn wit_releaseok(alloc: Global, place: &mut Place, seat: u16, lock: u32) -> i64
    ensures { Calls seat (ReleaseOk (record { 0 = lock }))
        place.old.handle.value result place.new.handle.value }
{
    place.call(alloc, SeatNo(seat), Call::ReleaseOk(LockNo(lock)))
}

/// The first lock's type is before the second one's: `Verifier::define_order`.
#[unsafe(no_mangle)]
pub extern "C" fn wit_define_order(
    alloc: Global,
    place: &mut Place,
    seat: u16,
    first: u32,
    second: u32,
) -> i64
    ensures { Calls seat (DefineOrder (record { 0 = first }) (record { 0 = second }))
        place.old.handle.value result place.new.handle.value }
{
    let call = Call::DefineOrder(LockNo(first), LockNo(second));
    place.call(alloc, SeatNo(seat), call)
}

/// So much is watched from now on: `Verifier::set_watch`.
#[unsafe(no_mangle)]
pub extern "C" fn wit_set_watch(alloc: Global, place: &mut Place, seat: u16, level: i32) -> i64
    ensures set { IfSome (watch_in level) (λ watch. Calls seat (SetWatch watch)
        place.old.handle.value result place.new.handle.value) }
    ensures refused { watch_in level ≡ None
        → Asks (λ _ n. n ≡ no_such) place.old.handle.value result place.new.handle.value }
{
    let Some(mut kept) = place.take(alloc) else {
        return EMPTY_PLACE;
    };
    let number = match watch_in(level) {
        Some(watch) => {
            let answer = kept.verifier.set_watch(SeatNo(seat), watch);
            kept.keep(answer)
        }
        None => NO_SUCH,
    };
    place.put(kept);
    number
}
