//! What is done with a lock that is held, and how it is let go.

ghost use Rattle.std.specs.Prelude.{◌≡◌, IfSome};

use crate::observing::{learn, learn_all};
use crate::worker::{Made, Place, Worker};
use std::sync::Wait;
use wit_gates::Gate;
use wit_locks::{Held, Kind, Lock, abandon};
use wit_model::{LockAssert, LockNo, Reply, WarnFlags};
use wit_shared::Room;

/// Does this or that with it.
pub(crate) fn play<J: Room, R: Wait, G: Gate, K: Kind>(
    place: &Place<J, R>,
    worker: &mut Worker<J>,
    lock: &Lock<J, G, K>,
    held: Held<G>,
) -> Held<G>
    requires gate { G.admits lock.now.gate held.hold.mode held.ticket }
    requires held { (held.hold.lock ≡ lock.now.number) × (held.hold.seat.0 ≡ worker.old.seat.seat) }
    ensures gate { G.admits lock.now.gate result.hold.mode result.ticket }
    ensures held { (result.hold.lock ≡ lock.now.number)
        × (result.hold.seat.0 ≡ worker.old.seat.seat) }
    ensures seat { worker.new.seat.seat ≡ worker.old.seat.seat }
{
    match held.asked() {
        Some(Reply::Adopted(parent, child)) => learn(place, worker, *parent, *child),
        Some(Reply::AdoptedAll(orders)) => learn_all(place, worker, orders.get().pairs()),
        _ => {}
    }
    match worker.random.below(8) {
        0 => recurse(place, worker, lock, held),
        1 => {
            question(place, worker, held.lock());
            held
        }
        2 => turn_up(place, worker, lock, held),
        3 => turn_down(place, worker, lock, held),
        4 if !place.quiet => {
            forbid(place, worker, held.lock());
            held
        }
        _ => held,
    }
}

fn recurse<J: Room, R: Wait, G: Gate, K: Kind>(
    place: &Place<J, R>,
    worker: &mut Worker<J>,
    lock: &Lock<J, G, K>,
    held: Held<G>,
) -> Held<G>
    requires gate { G.admits lock.now.gate held.hold.mode held.ticket }
    requires held { (held.hold.lock ≡ lock.now.number) × (held.hold.seat.0 ≡ worker.old.seat.seat) }
    ensures gate { G.admits lock.now.gate result.hold.mode result.ticket }
    ensures held { (result.hold.lock ≡ lock.now.number)
        × (result.hold.seat.0 ≡ worker.old.seat.seat) }
    ensures seat { worker.new.seat.seat ≡ worker.old.seat.seat }
{
    let site = worker.site();
    match lock.recurse(place.rt, place.shared, &mut worker.seat, site, held) {
        Ok(held) => {
            worker.tally.add(Made::Check, lock.number());
            worker.tally.add(Made::Note, lock.number());
            held
        }
        Err((held, fault)) => {
            worker.tally.refuse(fault);
            held
        }
    }
}

fn turn_up<J: Room, R: Wait, G: Gate, K: Kind>(
    place: &Place<J, R>,
    worker: &mut Worker<J>,
    lock: &Lock<J, G, K>,
    held: Held<G>,
) -> Held<G>
    requires gate { G.admits lock.now.gate held.hold.mode held.ticket }
    requires held { (held.hold.lock ≡ lock.now.number) × (held.hold.seat.0 ≡ worker.old.seat.seat) }
    ensures gate { G.admits lock.now.gate result.hold.mode result.ticket }
    ensures held { (result.hold.lock ≡ lock.now.number)
        × (result.hold.seat.0 ≡ worker.old.seat.seat) }
    ensures seat { worker.new.seat.seat ≡ worker.old.seat.seat }
{
    match lock.try_upgrade(place.rt, place.shared, &mut worker.seat, held) {
        Ok(held) => held,
        Err((held, fault)) => {
            worker.tally.refuse(fault);
            held
        }
    }
}

fn turn_down<J: Room, R: Wait, G: Gate, K: Kind>(
    place: &Place<J, R>,
    worker: &mut Worker<J>,
    lock: &Lock<J, G, K>,
    held: Held<G>,
) -> Held<G>
    requires gate { G.admits lock.now.gate held.hold.mode held.ticket }
    requires held { (held.hold.lock ≡ lock.now.number) × (held.hold.seat.0 ≡ worker.old.seat.seat) }
    ensures gate { G.admits lock.now.gate result.hold.mode result.ticket }
    ensures held { (result.hold.lock ≡ lock.now.number)
        × (result.hold.seat.0 ≡ worker.old.seat.seat) }
    ensures seat { worker.new.seat.seat ≡ worker.old.seat.seat }
{
    match lock.downgrade(place.rt, place.shared, &mut worker.seat, held) {
        Ok(held) => held,
        Err((held, fault)) => {
            worker.tally.refuse(fault);
            held
        }
    }
}

// Asks of the lock, and of what is held. The verifier isn't changed by it.
fn question<J: Room, R: Wait>(place: &Place<J, R>, worker: &mut Worker<J>, lock: LockNo)
    ensures { worker.new.seat.seat ≡ worker.old.seat.seat }
{
    let (rt, shared) = (place.rt, place.shared);
    let asserted = LockAssert(worker.random.below(64) as u8);
    let _answer = shared.assert_lock(rt, &mut worker.seat, lock, asserted);
    let flags = WarnFlags(worker.random.below(4) as u8);
    if let Err(fault) = shared.warn(rt, &mut worker.seat, Some(lock), flags) {
        worker.tally.refuse(fault);
    }
}

// Forbids the release of a lock and allows it again.
fn forbid<J: Room, R: Wait>(place: &Place<J, R>, worker: &mut Worker<J>, lock: LockNo)
    ensures { worker.new.seat.seat ≡ worker.old.seat.seat }
{
    let (rt, shared) = (place.rt, place.shared);
    if let Err(fault) = shared.norelease(rt, &mut worker.seat, lock) {
        worker.tally.refuse(fault);
    }
    if let Err(fault) = shared.releaseok(rt, &mut worker.seat, lock) {
        worker.tally.refuse(fault);
        // There was no memory for it; now there is.
        let _answer = shared.releaseok(rt, &mut worker.seat, lock);
    }
}

/// Lets a lock go, however often it was taken.
pub(crate) fn let_go<J: Room, R: Wait, G: Gate, K: Kind>(
    place: &Place<J, R>,
    worker: &mut Worker<J>,
    lock: &Lock<J, G, K>,
    held: Held<G>,
)
    requires gate { G.admits lock.now.gate held.hold.mode held.ticket }
    requires held { (held.hold.lock ≡ lock.now.number) × (held.hold.seat.0 ≡ worker.old.seat.seat) }
    ensures seat { worker.new.seat.seat ≡ worker.old.seat.seat }
{
    match unlock(place, worker, lock, held) {
        None => {}
        Some(held) => match unlock(place, worker, lock, held) {
            None => {}
            Some(held) => {
                worker.tally.blame("a lock can't be let go");
                abandon(held);
            }
        },
    }
}

// Once.
fn unlock<J: Room, R: Wait, G: Gate, K: Kind>(
    place: &Place<J, R>,
    worker: &mut Worker<J>,
    lock: &Lock<J, G, K>,
    held: Held<G>,
) -> Option<Held<G>>
    requires gate { G.admits lock.now.gate held.hold.mode held.ticket }
    requires held { (held.hold.lock ≡ lock.now.number) × (held.hold.seat.0 ≡ worker.old.seat.seat) }
    ensures gate { IfSome result (λ h. G.admits lock.now.gate h.hold.mode h.ticket) }
    ensures held { IfSome result (λ h. (h.hold.lock ≡ lock.now.number)
        × (h.hold.seat.0 ≡ worker.old.seat.seat)) }
    ensures seat { worker.new.seat.seat ≡ worker.old.seat.seat }
{
    match lock.unlock(place.rt, place.shared, &mut worker.seat, held) {
        Ok(left) => {
            worker.tally.add(Made::Unlock, lock.number());
            left
        }
        Err((held, _)) => {
            worker.tally.blame("a release is refused");
            Some(held)
        }
    }
}
