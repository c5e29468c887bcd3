//! A refused release, and a refused downgrade, leave the gate as it is.

use crate::fakes::{Counted, Counts};
use crate::tokens::{granted, kept, let_go, not_released, refused, shut, taken};
use crate::verifiers::{a_mutex, a_seat, a_site, closed, closed_by_all, pair_of, run_with};
use bitflags::Flags;
use std::alloc::Global;
use std::process::Abort;
use std::sync::Wait;
use std::test::Fail;
use wit_gates::CondGate;
use wit_locks::{Rw, abandon};
use wit_model::{Fault, LockFlags, Mode};
use wit_shared::{Observer, Program, Room, Shared};

/// A release that is refused: that of a mutex that is marked.
#[derive(Drop)]
struct Marked<'a> {
    alloc: Global,
    gate: Counted<'a, CondGate>,
}

impl<R: Wait + Abort> Program<R> for Marked<'_> {
    type Out = ();

    ghost suits = { λ program start observers. Unit {0} };

    ghost done = { λ program out. Unit {0} };

    fn run<J: Room + Send + Sync>(self, rt: &R, shared: Shared<J>, _observers: Vec<Observer<J>>) {
        let Marked { alloc, gate } = self;
        let counts = gate.counts;
        let mut one = a_seat(rt, &shared);
        let mut two = a_seat(rt, &shared);
        let site = a_site(rt, &shared, &mut one);
        let mutex = a_mutex(rt, &shared, &mut one, "m", gate);
        let held = taken(rt, &shared, &mut one, &mutex, site);
        assert!(rt; shared.norelease(rt, &mut one, mutex.number()).is_ok());
        let held = not_released(
            rt,
            mutex.unlock(rt, &shared, &mut one, held),
            Fault::ForbiddenUnlock,
        );
        assert_eq!(rt; counts.all(), [1, 0, 0, 0, 0]);
        let site = a_site(rt, &shared, &mut two);
        shut(rt, mutex.try_lock(rt, &shared, &mut two, site));
        assert!(rt; shared.releaseok(rt, &mut one, mutex.number()).is_ok());
        let_go(rt, &shared, &mut one, &mutex, held);
        assert_eq!(rt; counts.all(), [1, 1, 1, 0, 0]);
        closed_by_all(rt, shared, pair_of(rt, alloc, one, two));
    }
}

#[test]
fn a_refused_release_leaves_the_gate(rt: HostRuntime) -> Result<(), Fail> {
    let alloc = rt.alloc();
    let counts = Counts::new();
    let gate = Counted {
        inner: CondGate::new(alloc)?,
        counts: &counts,
    };
    run_with(&rt, alloc, 2, 64, Marked { alloc, gate });
    Ok(())
}

/// A downgrade that is refused: that of a lock that is held twice.
#[derive(Drop)]
struct HeldTwice<'a> {
    alloc: Global,
    gate: Counted<'a, CondGate>,
}

impl<R: Wait + Abort> Program<R> for HeldTwice<'_> {
    type Out = ();

    ghost suits = { λ program start observers. Unit {0} };

    ghost done = { λ program out. Unit {0} };

    fn run<J: Room + Send + Sync>(self, rt: &R, shared: Shared<J>, _observers: Vec<Observer<J>>) {
        let HeldTwice { alloc, gate } = self;
        let mut seat = a_seat(rt, &shared);
        let site = a_site(rt, &shared, &mut seat);
        let flags = LockFlags::RECURSABLE;
        let lock = Rw::new(rt, &shared, &mut seat, "rw", None, flags, gate)
            .ok()
            .expect(rt, "a lock");
        let held = granted(rt, lock.lock(rt, &shared, &mut seat, Mode::Exclusive, site));
        let held = kept(rt, lock.recurse(rt, &shared, &mut seat, site, held));
        let held = refused(
            rt,
            lock.downgrade(rt, &shared, &mut seat, held),
            Fault::DowngradeRecursed,
        );
        abandon(held);
        closed(rt, alloc, shared, seat);
    }
}

#[test]
fn a_refused_downgrade_leaves_the_gate(rt: HostRuntime) -> Result<(), Fail> {
    let alloc = rt.alloc();
    let counts = Counts::new();
    let gate = Counted {
        inner: CondGate::new(alloc)?,
        counts: &counts,
    };
    run_with(&rt, alloc, 2, 64, HeldTwice { alloc, gate });
    assert_eq!(rt; counts.all(), [1, 0, 0, 0, 0]);
    Ok(())
}
