//! Verifiers that are shared.

ghost use Rattle.std.specs.Prelude.{◌≡◌, ◌≤◌};
ghost use Rattle.wit_model.specs.Rules.State.{Start};
ghost use Rattle.wit_shared.specs.declared.opening.TheConstants.{MOST_OBSERVERS};

use bitflags::Flags;
use std::alloc::Global;
use std::process::Abort;
use std::sync::Wait;
use wit_core::Verifier;
use wit_gates::Gate;
use wit_locks::Mtx;
use wit_model::{Class, Limits, LockFlags, LockNo, Mode, OpFlags, Reply, SeatNo, Site};
use wit_shared::{OpenedVerifier, Program, Room, Seat, Shared, share};

fn verifier_within<R: Abort>(rt: &R, alloc: Global, limits: Option<Limits>) -> Verifier {
    let limits = limits.expect(rt, "limits");
    Verifier::new(alloc, limits, Vec::new(alloc), Vec::new(alloc))
        .ok()
        .expect(rt, "memory")
}

/// Runs a program with a new verifier for a few seats and locks, whose log holds this many entries.
pub(crate) fn run_with<R: Wait + Abort, S: Program<R> + Drop>(
    rt: &R,
    alloc: Global,
    seats: u32,
    log: u32,
    program: S,
) -> S::Out
    requires { (start : Start) → S.suits program start 0 }
{
    run_within(rt, alloc, Limits::new(seats, 8, 16, 32, log), 0, program)
}

/// Runs a program with a new verifier within these limits, and with this many observers.
pub(crate) fn run_within<R: Wait + Abort, S: Program<R> + Drop>(
    rt: &R,
    alloc: Global,
    limits: Option<Limits>,
    observers: u16,
    program: S,
) -> S::Out
    requires few { observers ≤ MOST_OBSERVERS }
    requires suits { (start : Start) → S.suits program start observers }
{
    share(
        alloc,
        rt,
        verifier_within(rt, alloc, limits),
        observers,
        program,
    )
    .ok()
    .expect(rt, "memory")
}

/// The next seat.
pub(crate) fn a_seat<R: Wait + Abort, J: Room>(rt: &R, shared: &Shared<J>) -> Seat<J> {
    shared.seat(rt).ok().expect(rt, "a seat")
}

/// A line of a file that the seat was given.
pub(crate) fn a_site<R: Wait + Abort, J: Room>(
    rt: &R,
    shared: &Shared<J>,
    seat: &mut Seat<J>,
) -> Site {
    let file = shared.file(rt, seat, "f").ok().expect(rt, "a file");
    Site { file, line: 1 }
}

/// A mutex over this gate.
pub(crate) fn a_mutex<R: Wait + Abort, J: Room, G: Gate + Drop>(
    rt: &R,
    shared: &Shared<J>,
    seat: &mut Seat<J>,
    name: &str,
    gate: G,
) -> Mtx<J, G> {
    match Mtx::new(rt, shared, seat, name, None, LockFlags::empty(), gate) {
        Ok(mutex) => mutex,
        Err((_, fault)) => panic!(rt; "no mutex: {fault}"),
    }
}

/// The number of a mutex without a gate.
pub(crate) fn mutex<R: Wait + Abort, J: Room>(
    rt: &R,
    shared: &Shared<J>,
    seat: &mut Seat<J>,
    name: &str,
) -> LockNo {
    shared
        .init(rt, seat, name, None, Class::SleepMutex, LockFlags::empty())
        .ok()
        .expect(rt, "a mutex")
}

/// Asks for a mutex without a gate.
pub(crate) fn ask<R: Wait + Abort, J: Room>(
    rt: &R,
    shared: &Shared<J>,
    seat: &mut Seat<J>,
    lock: LockNo,
    site: Site,
) -> Reply {
    let ops = OpFlags::NEWORDER | OpFlags::FRESH;
    let asked = shared.check(rt, seat, lock, Mode::Exclusive, ops, site);
    asked.ok().expect(rt, "asked for")
}

/// Asks for it, and has it.
pub(crate) fn take<R: Wait + Abort, J: Room>(
    rt: &R,
    shared: &Shared<J>,
    seat: &mut Seat<J>,
    lock: LockNo,
    site: Site,
) -> Reply {
    let asked = ask(rt, shared, seat, lock, site);
    shared.note(rt, seat, lock).ok().expect(rt, "acquired");
    asked
}

/// Lets it go.
pub(crate) fn leave<R: Wait + Abort, J: Room>(
    rt: &R,
    shared: &Shared<J>,
    seat: &mut Seat<J>,
    lock: LockNo,
) {
    let freed = shared.unlock(rt, seat, lock, Mode::Exclusive);
    freed.ok().expect(rt, "released");
}

/// The verifier, once its only seat is given back.
pub(crate) fn closed<R: Wait + Abort, J: Room>(
    rt: &R,
    alloc: Global,
    shared: Shared<J>,
    seat: Seat<J>,
) -> Verifier {
    let mut seats = Vec::with_capacity(alloc, 1).ok().expect(rt, "memory");
    seats.push_reserved(seat);
    closed_by_all(rt, shared, seats)
}

/// The verifier, once its seats are given back.
pub(crate) fn closed_by_all<R: Wait + Abort, J: Room>(
    rt: &R,
    shared: Shared<J>,
    seats: Vec<Seat<J>>,
) -> Verifier {
    match shared.close(rt, seats) {
        Ok(verifier) => verifier,
        Err(unclosed) => {
            unclosed.abandon(rt);
            panic!(rt; "a seat is missing")
        }
    }
}

/// Two seats in a list.
pub(crate) fn pair_of<R: Abort, J: Room>(
    rt: &R,
    alloc: Global,
    one: Seat<J>,
    two: Seat<J>,
) -> Vec<Seat<J>> {
    let mut seats = Vec::with_capacity(alloc, 2).ok().expect(rt, "memory");
    seats.push_reserved(one);
    seats.push_reserved(two);
    seats
}

/// A verifier within these limits that is about to be shared.
pub(crate) fn opened<R: Abort>(rt: &R, alloc: Global, limits: Option<Limits>) -> OpenedVerifier {
    OpenedVerifier::new(alloc, verifier_within(rt, alloc, limits))
        .ok()
        .expect(rt, "memory")
}

/// The shared verifier, which nobody observes.
pub(crate) fn named<R: Wait + Abort, J: Room>(rt: &R, opened: OpenedVerifier) -> Shared<J>
    requires { (opened.story.start ≡ J.start) × (opened.table ≡ J.table) × (opened.list ≡ J.list) }
{
    match opened.named::<J, R>(rt, 0) {
        Ok((shared, _observers)) => shared,
        Err(_) => panic!(rt; "no memory"),
    }
}

/// How many entries of the log are of a seat.
pub(crate) fn entries_of(verifier: &Verifier, seat: SeatNo) -> usize {
    verifier
        .history()
        .iter()
        .filter(|entry| entry.seat == seat)
        .count()
}
