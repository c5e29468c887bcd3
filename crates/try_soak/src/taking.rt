//! How a lock of each kind is taken.

ghost use Rattle.std.specs.Prelude.{◌≡◌, Ok, Some, IfSome};

use crate::worker::{Made, Place, Tally, Worker};
use std::sync::Wait;
use wit_gates::Gate;
use wit_locks::{Held, Lock, Mutex, MutexClass, Shareable, ShareableClass};
use wit_model::{Fault, LockNo, Mode};
use wit_shared::Room;

// The token of a lock that was waited for, and whose gate may be fickle, or else refuses nobody.
fn waited<G: Gate>(
    tally: &mut Tally,
    lock: LockNo,
    fickle: bool,
    answer: Result<Held<G>, Fault>,
) -> Option<Held<G>>
    ensures { IfSome result (λ held. answer ≡ Ok held) }
{
    match answer {
        Ok(held) => {
            tally.add(Made::Check, lock);
            tally.add(Made::Note, lock);
            Some(held)
        }
        Err(fault) => {
            // It was checked and given up.
            if fault == Fault::GateRefused {
                tally.add(Made::Check, lock);
                tally.add(Made::GiveUp, lock);
                if !fickle {
                    tally.blame("a gate lets nobody in");
                }
            }
            tally.refuse(fault);
            None
        }
    }
}

// The token of a lock that was tried.
fn tried<G: Gate>(
    tally: &mut Tally,
    lock: LockNo,
    answer: Result<Option<Held<G>>, Fault>,
) -> Option<Held<G>>
    ensures { IfSome result (λ held. answer ≡ Ok (Some held)) }
{
    match answer {
        Ok(held) => {
            if held.is_some() {
                tally.add(Made::Try, lock);
            }
            held
        }
        Err(fault) => {
            tally.refuse(fault);
            None
        }
    }
}

/// Takes a mutex, whose gate may be fickle, or tries to.
pub(crate) fn take_mutex<J: Room, R: Wait, G: Gate, C: MutexClass>(
    place: &Place<J, R>,
    worker: &mut Worker<J>,
    lock: &Lock<J, G, Mutex<C>>,
    fickle: bool,
    waits: bool,
) -> Option<Held<G>>
    ensures gate { IfSome result (λ h. G.admits lock.now.gate h.hold.mode h.ticket) }
    ensures held { IfSome result (λ h. (h.hold.lock ≡ lock.now.number)
        × (h.hold.seat.0 ≡ worker.old.seat.seat)) }
    ensures seat { worker.new.seat.seat ≡ worker.old.seat.seat }
{
    let site = worker.site();
    if waits {
        let answer = lock.lock(place.rt, place.shared, &mut worker.seat, site);
        waited(&mut worker.tally, lock.number(), fickle, answer)
    } else {
        let answer = lock.try_lock(place.rt, place.shared, &mut worker.seat, site);
        tried(&mut worker.tally, lock.number(), answer)
    }
}

// One of both modes.
fn any_mode<J: Room>(worker: &mut Worker<J>) -> Mode
    ensures { worker.new.seat ≡ worker.old.seat }
{
    if worker.random.one_in(3) {
        Mode::Exclusive
    } else {
        Mode::Shared
    }
}

/// Takes a lock that can be shared, in either mode, or tries to. Its gate may be fickle.
pub(crate) fn take_shareable<J: Room, R: Wait, G: Gate, C: ShareableClass>(
    place: &Place<J, R>,
    worker: &mut Worker<J>,
    lock: &Lock<J, G, Shareable<C>>,
    fickle: bool,
    waits: bool,
) -> Option<Held<G>>
    ensures gate { IfSome result (λ h. G.admits lock.now.gate h.hold.mode h.ticket) }
    ensures held { IfSome result (λ h. (h.hold.lock ≡ lock.now.number)
        × (h.hold.seat.0 ≡ worker.old.seat.seat)) }
    ensures seat { worker.new.seat.seat ≡ worker.old.seat.seat }
{
    let (site, mode) = (worker.site(), any_mode(worker));
    if waits {
        let answer = lock.lock(place.rt, place.shared, &mut worker.seat, mode, site);
        waited(&mut worker.tally, lock.number(), fickle, answer)
    } else {
        let answer = lock.try_lock(place.rt, place.shared, &mut worker.seat, mode, site);
        tried(&mut worker.tally, lock.number(), answer)
    }
}
