//! The chunks run out in a thread of its own.

ghost use Rattle.std.specs.Prelude.{◌≡◌};

use crate::tokens::{let_go, taken};
use crate::verifiers::{a_mutex, a_seat, a_site, closed_by_all, named, opened, pair_of};
use std::alloc::Global;
use std::marker::Brand;
use std::process::Abort;
use std::sync::Wait;
use std::test::Fail;
use std::thread::{Threads, join};
use wit_core::Verifier;
use wit_gates::CondGate;
use wit_locks::Mtx;
use wit_model::{Limits, Reply, Site, Watch};
use wit_shared::{OpenedVerifier, Room, Seat, Shared};

/// Five mutexes, whose holder has all instances there are.
struct Five<J: Room> {
    mutexes: (
        Mtx<J, CondGate>,
        Mtx<J, CondGate>,
        Mtx<J, CondGate>,
        Mtx<J, CondGate>,
        Mtx<J, CondGate>,
    ),
}

impl<J: Room> Drop for Five<J> {
    fn drop(self) {
        let Five { mutexes: _ } = self;
    }
}

fn mutex_of<R: Wait + Abort, J: Room>(
    rt: &R,
    alloc: Global,
    shared: &Shared<J>,
    seat: &mut Seat<J>,
    name: &str,
) -> Mtx<J, CondGate> {
    let gate = CondGate::new(alloc).ok().expect(rt, "memory");
    a_mutex(rt, shared, seat, name, gate)
}

fn make_five<R: Wait + Abort, J: Room>(
    rt: &R,
    alloc: Global,
    shared: &Shared<J>,
    seat: &mut Seat<J>,
) -> Five<J> {
    Five {
        mutexes: (
            mutex_of(rt, alloc, shared, seat, "n1"),
            mutex_of(rt, alloc, shared, seat, "n2"),
            mutex_of(rt, alloc, shared, seat, "n3"),
            mutex_of(rt, alloc, shared, seat, "n4"),
            mutex_of(rt, alloc, shared, seat, "n5"),
        ),
    }
}

/// Holds five mutexes while another seat takes a sixth one.
fn hold_five<R: Threads + Wait + Abort + Sync, J: Room + Send + Sync>(
    rt: &R,
    shared: &Shared<J>,
    seat: &mut Seat<J>,
    five: &Five<J>,
    other: &mut Seat<J>,
    sixth: &Mtx<J, CondGate>,
    site: Site,
) {
    let (a, b, c, d, e) = &five.mutexes;
    let first = taken(rt, shared, seat, a, site);
    let second = taken(rt, shared, seat, b, site);
    let third = taken(rt, shared, seat, c, site);
    let fourth = taken(rt, shared, seat, d, site);
    let fifth = taken(rt, shared, seat, e, site);
    meanwhile(rt, shared, other, sixth, site);
    let_go(rt, shared, seat, e, fifth);
    let_go(rt, shared, seat, d, fourth);
    let_go(rt, shared, seat, c, third);
    let_go(rt, shared, seat, b, second);
    let_go(rt, shared, seat, a, first);
}

fn meanwhile<R: Threads + Wait + Abort + Sync, J: Room + Send + Sync>(
    rt: &R,
    shared: &Shared<J>,
    seat: &mut Seat<J>,
    mutex: &Mtx<J, CondGate>,
    site: Site,
) {
    let ((), ()) = join(rt, || exhaust(rt, shared, seat, mutex, site), || ());
}

/// Takes a mutex for which no instance is left, and lets it go.
fn exhaust<R: Wait + Abort, J: Room>(
    rt: &R,
    shared: &Shared<J>,
    seat: &mut Seat<J>,
    mutex: &Mtx<J, CondGate>,
    site: Site,
) {
    let held = taken(rt, shared, seat, mutex, site);
    assert!(rt; matches!(held.noted(), Reply::Exhausted));
    let_go(rt, shared, seat, mutex, held);
}

/// The chunks run out, and all is given back.
fn run_out<J: Room + Send + Sync, R: Threads + Wait + Abort + Sync>(
    rt: &R,
    alloc: Global,
    opened: OpenedVerifier,
) -> Verifier
    requires { (opened.story.start ≡ J.start) × (opened.table ≡ J.table) × (opened.list ≡ J.list) }
{
    let shared = named::<R, J>(rt, opened);
    let mut one = a_seat(rt, &shared);
    let mut two = a_seat(rt, &shared);
    let site = a_site(rt, &shared, &mut one);
    let five = make_five(rt, alloc, &shared, &mut one);
    let sixth = mutex_of(rt, alloc, &shared, &mut one, "m");
    hold_five(rt, &shared, &mut one, &five, &mut two, &sixth, site);
    closed_by_all(rt, shared, pair_of(rt, alloc, one, two))
}

#[test]
fn chunks_run_out_in_a_thread(rt: HostRuntime) -> Result<(), Fail> {
    let alloc = rt.alloc();
    let opened = opened(&rt, alloc, Limits::new(2, 8, 16, 1, 64));
    let verifier = run_out::<Brand, HostRuntime>(&rt, alloc, opened);
    assert_eq!(rt; verifier.history().len(), 23);
    assert_eq!(rt; verifier.reports(), 1);
    assert_eq!(rt; verifier.watch(), Watch::Off);
    Ok(())
}
