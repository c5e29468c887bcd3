//! Two seats share a lock, over each gate that there is.

use crate::tokens::{granted, kept, left, refused, released, shut, tried};
use crate::verifiers::{a_seat, a_site, closed_by_all, pair_of, run_with};
use std::alloc::Global;
use std::process::Abort;
use std::sync::Wait;
use std::test::Fail;
use wit_gates::{CondGate, Gate, SpinGate, WaitGate, Waiting};
use wit_locks::Rw;
use wit_model::{Fault, LockFlags, Mode, Site};
use wit_shared::{Observer, Program, Room, Seat, Shared};

/// A reader/writer lock that two seats share, and that one of them then has alone.
#[derive(Drop)]
struct SharedByTwo<G> {
    alloc: Global,
    gate: G,
}

impl<R: Wait + Abort, G: Gate + Drop> Program<R> for SharedByTwo<G> {
    type Out = usize;

    ghost suits = { λ program start observers. Unit {0} };

    ghost done = { λ program out. Unit {0} };

    fn run<J: Room + Send + Sync>(
        self,
        rt: &R,
        shared: Shared<J>,
        _observers: Vec<Observer<J>>,
    ) -> usize {
        let mut one = a_seat(rt, &shared);
        let mut two = a_seat(rt, &shared);
        let site = a_site(rt, &shared, &mut one);
        let flags = LockFlags::RECURSABLE;
        let lock = match Rw::new(rt, &shared, &mut one, "rw", None, flags, self.gate) {
            Ok(lock) => lock,
            Err((_, fault)) => panic!(rt; "no lock: {fault}"),
        };
        share_and_have_alone(rt, &shared, &mut one, &mut two, &lock, site);
        let seats = pair_of(rt, self.alloc, one, two);
        closed_by_all(rt, shared, seats).history().len()
    }
}

fn share_and_have_alone<R: Wait + Abort, J: Room, G: Gate>(
    rt: &R,
    shared: &Shared<J>,
    one: &mut Seat<J>,
    two: &mut Seat<J>,
    lock: &Rw<J, G>,
    site: Site,
) {
    let first = granted(rt, lock.lock(rt, shared, one, Mode::Shared, site));
    shut(rt, lock.try_lock(rt, shared, two, Mode::Exclusive, site));
    let second = tried(rt, lock.try_lock(rt, shared, two, Mode::Shared, site));
    assert!(rt; second.asked().is_none(), "a try asks for nothing");
    let first = refused(
        rt,
        lock.try_upgrade(rt, shared, one, first),
        Fault::GateRefused,
    );
    released(rt, lock.unlock(rt, shared, two, second));
    let first = kept(rt, lock.try_upgrade(rt, shared, one, first));
    let first = kept(rt, lock.downgrade(rt, shared, one, first));
    let first = kept(rt, lock.recurse(rt, shared, one, site, first));
    assert_eq!(rt; first.depth(), 1);
    let first = left(rt, lock.unlock(rt, shared, one, first));
    assert_eq!(rt; first.depth(), 0);
    released(rt, lock.unlock(rt, shared, one, first));
}

#[test]
fn two_seats_share_over_both_gates(rt: HostRuntime) -> Result<(), Fail> {
    let alloc = rt.alloc();
    let gate = CondGate::new(alloc)?;
    assert_eq!(rt;
        run_with(&rt, alloc, 2, 64, SharedByTwo { alloc, gate }),
        11
    );
    let gate = SpinGate::new(alloc)?;
    assert_eq!(rt;
        run_with(&rt, alloc, 2, 64, SharedByTwo { alloc, gate }),
        11
    );
    Ok(())
}

/// Two seats share a lock over each gate. Their tokens stand beside each other.
#[derive(Drop)]
struct Paired {
    alloc: Global,
}

impl<R: Wait + Abort> Program<R> for Paired {
    type Out = usize;

    ghost suits = { λ program start observers. Unit {0} };

    ghost done = { λ program out. Unit {0} };

    fn run<J: Room + Send + Sync>(
        self,
        rt: &R,
        shared: Shared<J>,
        _observers: Vec<Observer<J>>,
    ) -> usize {
        let alloc = self.alloc;
        let mut one = a_seat(rt, &shared);
        let mut two = a_seat(rt, &shared);
        let site = a_site(rt, &shared, &mut one);
        let flags = LockFlags::RECURSABLE;
        let gate = CondGate::new(alloc).ok().expect(rt, "memory");
        match Rw::new(rt, &shared, &mut one, "rw", None, flags, gate) {
            Ok(lock) => takes_a_pair(rt, &shared, &mut one, &mut two, &lock, site),
            Err((_, fault)) => panic!(rt; "no lock: {fault}"),
        }
        let gate = SpinGate::new(alloc).ok().expect(rt, "memory");
        match Rw::new(rt, &shared, &mut one, "rw", None, flags, gate) {
            Ok(lock) => takes_a_pair(rt, &shared, &mut one, &mut two, &lock, site),
            Err((_, fault)) => panic!(rt; "no lock: {fault}"),
        }
        closed_by_all(rt, shared, pair_of(rt, alloc, one, two))
            .history()
            .len()
    }
}

fn takes_a_pair<R: Wait + Abort, J: Room, W: Waiting>(
    rt: &R,
    shared: &Shared<J>,
    one: &mut Seat<J>,
    two: &mut Seat<J>,
    lock: &Rw<J, WaitGate<W>>,
    site: Site,
) {
    let first = granted(rt, lock.lock(rt, shared, one, Mode::Shared, site));
    let second = granted(rt, lock.lock(rt, shared, two, Mode::Shared, site));
    let (first, second) = lock.pair(first, second);
    released(rt, lock.unlock(rt, shared, one, first));
    released(rt, lock.unlock(rt, shared, two, second));
}

#[test]
fn tokens_of_two_seats_are_shares(rt: HostRuntime) -> Result<(), Fail> {
    let alloc = rt.alloc();
    // Each lock is made, and taken twice with a check, a note and an unlock.
    assert_eq!(rt; run_with(&rt, alloc, 2, 64, Paired { alloc }), 14);
    Ok(())
}
