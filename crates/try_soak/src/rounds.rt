//! What each thread does.

ghost use Rattle.std.specs.Prelude.{◌≡◌};

use crate::gates::Fickle;
use crate::holding::{let_go, play};
use crate::locks::Watched;
use crate::observing::{circle, learn, look, name_file};
use crate::taking::{take_mutex, take_shareable};
use crate::walking::walk;
use crate::worker::{Place, Worker};
use bitflags::Flags;
use std::sync::Wait;
use wit_locks::Mtx;
use wit_model::{FileNo, LockFlags, Reply, Watch};
use wit_shared::Room;

// So many locks are taken one behind the other.
const DEEPEST: u32 = 4;

/// So many rounds of calls.
pub(crate) fn work<J: Room, R: Wait>(place: &Place<J, R>, worker: &mut Worker<J>, rounds: u32) {
    for _ in 0..rounds {
        if worker.file == FileNo(0) {
            name_file(place, worker);
        } else {
            round(place, worker);
        }
    }
}

fn round<J: Room, R: Wait>(place: &Place<J, R>, worker: &mut Worker<J>) {
    match worker.random.below(24) {
        0 => fresh(place, worker),
        1 => define(place, worker),
        2 => circle(place, worker),
        3 => look(worker),
        4 if place.quiet => turn_watch(place, worker),
        4 => walk(place, worker),
        5 | 6 => crossed(place, worker),
        _ => nest(place, worker, 0, DEEPEST),
    }
}

// Takes a lock, and others behind it. A thread waits only for a lock that comes behind all that it
// has, so that no threads wait for one another; others it tries.
fn nest<J: Room, R: Wait>(place: &Place<J, R>, worker: &mut Worker<J>, floor: u32, deeper: u32)
    ensures { worker.new.seat.seat ≡ worker.old.seat.seat }
{
    let count = place.count();
    if deeper == 0 || floor >= count {
        return;
    }
    let waits = !worker.random.one_in(4);
    let first = if waits { floor } else { 0 };
    let number = first + worker.random.below(count - first);
    let next = if number < floor { floor } else { number + 1 };
    match place.locks.get(number as usize) {
        None => {}
        Some(Watched::Mutex(lock)) => {
            if let Some(held) = take_mutex(place, worker, lock, true, waits) {
                let held = play(place, worker, lock, held);
                nest(place, worker, next, deeper - 1);
                let_go(place, worker, lock, held);
            }
        }
        Some(Watched::Spin(lock)) => {
            if let Some(held) = take_mutex(place, worker, lock, false, waits) {
                let held = play(place, worker, lock, held);
                nest(place, worker, next, deeper - 1);
                let_go(place, worker, lock, held);
            }
        }
        Some(Watched::Rw(lock)) => {
            if let Some(held) = take_shareable(place, worker, lock, true, waits) {
                let held = play(place, worker, lock, held);
                nest(place, worker, next, deeper - 1);
                let_go(place, worker, lock, held);
            }
        }
        Some(Watched::Sx(lock)) => {
            if let Some(held) = take_shareable(place, worker, lock, false, waits) {
                let held = play(place, worker, lock, held);
                nest(place, worker, next, deeper - 1);
                let_go(place, worker, lock, held);
            }
        }
    }
}

// Two locks, of which the one that was taken first is let go first.
fn crossed<J: Room, R: Wait>(place: &Place<J, R>, worker: &mut Worker<J>) {
    let count = place.count();
    if count == 0 {
        return;
    }
    let number = worker.random.below(count) as usize;
    if let (Some(Watched::Rw(first)), Some(Watched::Sx(second))) = (
        place.locks.get(number),
        place.locks.get(number + 1),
    ) {
        if let Some(held) = take_shareable(place, worker, first, true, true) {
            match take_shareable(place, worker, second, false, true) {
                Some(other) => {
                    let_go(place, worker, first, held);
                    let_go(place, worker, second, other);
                }
                None => let_go(place, worker, first, held),
            }
        }
    }
}

// A mutex that nobody else has: made, taken, let go and destroyed.
fn fresh<J: Room, R: Wait>(place: &Place<J, R>, worker: &mut Worker<J>) {
    let (rt, shared) = (place.rt, place.shared);
    let gate = match Fickle::new(place.alloc) {
        Ok(gate) => gate,
        Err(fault) => {
            worker.tally.refuse(fault);
            return;
        }
    };
    let flags = LockFlags::empty();
    match Mtx::new(rt, shared, &mut worker.seat, "fresh", None, flags, gate) {
        Ok(lock) => {
            if let Some(held) = take_mutex(place, worker, &lock, true, true) {
                let_go(place, worker, &lock, held);
            }
            if let Err((_lock, fault)) = lock.destroy(rt, shared, &mut worker.seat) {
                worker.tally.refuse(fault);
            }
        }
        Err((_gate, fault)) => worker.tally.refuse(fault),
    }
}

// An order between two of the locks' types.
fn define<J: Room, R: Wait>(place: &Place<J, R>, worker: &mut Worker<J>) {
    let count = place.count();
    if count == 0 {
        return;
    }
    let first = worker.random.below(count) as usize;
    let second = worker.random.below(count) as usize;
    let (Some(first), Some(second)) = (place.locks.get(first), place.locks.get(second)) else {
        return;
    };
    let (first, second) = (first.number(), second.number());
    match place
        .shared
        .define_order(place.rt, &mut worker.seat, first, second)
    {
        Ok(Reply::Adopted(parent, child)) => learn(place, worker, parent, child),
        Ok(_) => {}
        Err(fault) => worker.tally.refuse(fault),
    }
}

// Orders aren't checked for a while.
fn turn_watch<J: Room, R: Wait>(place: &Place<J, R>, worker: &mut Worker<J>) {
    if !worker.turns {
        return;
    }
    for watch in [Watch::Quiet, Watch::On] {
        if let Err(fault) = place.shared.set_watch(place.rt, &mut worker.seat, watch) {
            worker.tally.refuse(fault);
        }
        nest(place, worker, 0, DEEPEST);
    }
}
