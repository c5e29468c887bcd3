//! A walk over all calls of a shared verifier, which each thread makes with locks that nobody else
//! knows.

use crate::observing::{circle, learn, look, name_file};
use crate::worker::{Made, Place, Worker, count};
use bitflags::Flags;
use std::sync::Wait;
use wit_core::Verifier;
use wit_model::{
    AssertAnswer, Class, Fault, FileNo, LockAssert, LockFlags, LockNo, Mode, OpFlags, Reply, Site,
    TypeNo, WarnFlags, Watch,
};
use wit_shared::{Look, Room};

/// A call that the log keeps, but for the making of a lock.
#[derive(Clone, Copy)]
enum LoggedCall {
    Define(LockNo, LockNo),
    Check(LockNo, Mode, Site),
    Note(LockNo),
    Try(LockNo, Mode, Site),
    GiveUp(LockNo),
    Unlock(LockNo, Mode),
    Upgrade(LockNo),
    Downgrade(LockNo),
    Forbid(LockNo),
    Allow(LockNo),
    Destroy(LockNo),
    Turn(Watch),
}

/// The types of two locks.
#[derive(Drop)]
struct TypesOf {
    outer: LockNo,
    inner: LockNo,
}

impl Look for TypesOf {
    type Out = (Option<TypeNo>, Option<TypeNo>);

    ghost done = { λ look types s. Unit {0} };

    fn look(self, verifier: &Verifier) -> (Option<TypeNo>, Option<TypeNo>) {
        (verifier.type_of(self.outer), verifier.type_of(self.inner))
    }
}

/// Makes each call but those that turn the watch. While nobody turns it each call is accepted, and
/// each question has one answer.
pub(crate) fn walk<J: Room, R: Wait>(place: &Place<J, R>, worker: &mut Worker<J>) {
    name_file(place, worker);
    if worker.file == FileNo(0) {
        return;
    }
    let site = worker.site();
    let outer = lock_named(place, worker, "walk outer");
    let inner = lock_named(place, worker, "walk inner");
    let (Some(outer), Some(inner)) = (outer, inner) else {
        return;
    };
    let taking = [
        LoggedCall::Define(outer, inner),
        LoggedCall::Check(outer, Mode::Shared, site),
        LoggedCall::Note(outer),
        LoggedCall::Upgrade(outer),
        LoggedCall::Forbid(outer),
    ];
    go(place, worker, &taking);
    ask(place, worker, outer);
    ask_of_orders(place, worker, outer, inner);
    let leaving = [
        LoggedCall::Allow(outer),
        LoggedCall::Downgrade(outer),
        LoggedCall::Check(inner, Mode::Exclusive, site),
        LoggedCall::GiveUp(inner),
        LoggedCall::Try(inner, Mode::Exclusive, site),
        LoggedCall::Unlock(inner, Mode::Exclusive),
        LoggedCall::Unlock(outer, Mode::Shared),
        LoggedCall::Destroy(inner),
        LoggedCall::Destroy(outer),
    ];
    go(place, worker, &leaving);
}

/// Turns the watch, and back. Others may do so meanwhile: once all have, everything is watched.
pub(crate) fn turn<J: Room, R: Wait>(place: &Place<J, R>, worker: &mut Worker<J>) {
    go(
        place,
        worker,
        &[LoggedCall::Turn(Watch::Quiet), LoggedCall::Turn(Watch::On)],
    );
}

// A lock whose type has its name.
fn lock_named<J: Room, R: Wait>(
    place: &Place<J, R>,
    worker: &mut Worker<J>,
    name: &str,
) -> Option<LockNo> {
    let (class, flags) = (Class::Sx, LockFlags::empty());
    match place
        .shared
        .init(place.rt, &mut worker.seat, name, None, class, flags)
    {
        Ok(lock) => Some(lock),
        Err(fault) => {
            worker.tally.refuse(fault);
            None
        }
    }
}

// Makes these calls, one after the other.
fn go<J: Room, R: Wait>(place: &Place<J, R>, worker: &mut Worker<J>, calls: &[LoggedCall]) {
    for call in calls {
        if let Err(fault) = make(place, worker, *call) {
            worker.tally.refuse(fault);
            // There was no memory for it; now there is.
            let _answer = make(place, worker, *call);
        }
    }
}

fn make<J: Room, R: Wait>(
    place: &Place<J, R>,
    worker: &mut Worker<J>,
    call: LoggedCall,
) -> Result<Reply, Fault> {
    let (rt, shared) = (place.rt, place.shared);
    let seat = &mut worker.seat;
    let ops = OpFlags::NEWORDER | OpFlags::FRESH;
    let answer = match call {
        LoggedCall::Define(first, second) => shared.define_order(rt, seat, first, second),
        LoggedCall::Check(lock, mode, site) => shared.check(rt, seat, lock, mode, ops, site),
        LoggedCall::Note(lock) => shared.note(rt, seat, lock),
        LoggedCall::Try(lock, mode, site) => shared.note_try(rt, seat, lock, mode, site),
        LoggedCall::GiveUp(lock) => shared.give_up(rt, seat, lock),
        LoggedCall::Unlock(lock, mode) => shared.unlock(rt, seat, lock, mode),
        LoggedCall::Upgrade(lock) => shared.upgrade(rt, seat, lock),
        LoggedCall::Downgrade(lock) => shared.downgrade(rt, seat, lock),
        LoggedCall::Forbid(lock) => shared.norelease(rt, seat, lock),
        LoggedCall::Allow(lock) => shared.releaseok(rt, seat, lock),
        LoggedCall::Destroy(lock) => shared.destroy(rt, seat, lock),
        LoggedCall::Turn(watch) => shared.set_watch(rt, seat, watch),
    };
    if answer.is_ok() {
        match call {
            LoggedCall::Check(lock, ..) => worker.tally.add(Made::Check, lock),
            LoggedCall::Note(lock) => worker.tally.add(Made::Note, lock),
            LoggedCall::Try(lock, ..) => worker.tally.add(Made::Try, lock),
            LoggedCall::GiveUp(lock) => worker.tally.add(Made::GiveUp, lock),
            LoggedCall::Unlock(lock, _) => worker.tally.add(Made::Unlock, lock),
            _ => {}
        }
    }
    answer
}

// Asks while this lock alone is held, exclusively.
fn ask<J: Room, R: Wait>(place: &Place<J, R>, worker: &mut Worker<J>, outer: LockNo) {
    let (rt, shared) = (place.rt, place.shared);
    match shared.seat(rt) {
        Err(_) => count(&mut worker.tally.questions.seat),
        Ok(seat) => {
            seat.abandon();
            worker.tally.blame("a seat is handed out that isn't there");
        }
    }
    match shared.assert_lock(rt, &mut worker.seat, outer, LockAssert::XLOCKED) {
        Ok(AssertAnswer::Holds) => count(&mut worker.tally.questions.assert_lock),
        _ => worker.tally.blame("an assertion fails"),
    }
    match shared.warn(rt, &mut worker.seat, None, WarnFlags::empty()) {
        Ok(1) => count(&mut worker.tally.questions.warn),
        _ => worker.tally.blame("a warning doesn't count one lock"),
    }
    circle(place, worker);
}

// Asks of the order that was defined, by a look, by news and by what an observer knows.
fn ask_of_orders<J: Room, R: Wait>(
    place: &Place<J, R>,
    worker: &mut Worker<J>,
    outer: LockNo,
    inner: LockNo,
) {
    let (rt, shared) = (place.rt, place.shared);
    match shared.look(rt, &mut worker.seat, TypesOf { outer, inner }) {
        (Some(parent), Some(child)) => {
            count(&mut worker.tally.questions.look);
            learn(place, worker, parent, child);
        }
        _ => worker.tally.blame("a lock has no type"),
    }
    shared.covers(rt, &mut worker.seat, &worker.observer);
    count(&mut worker.tally.questions.covers);
    look(worker);
}
