//! What the calls of a lock ask of its gate, by one thread.

use crate::fakes::{Counted, Counts, Shut};
use crate::tokens::{let_go, not_granted, taken, tried};
use crate::verifiers::{a_mutex, a_seat, a_site, closed, run_with, run_within};
use std::alloc::Global;
use std::process::Abort;
use std::sync::Wait;
use std::test::Fail;
use wit_core::Verifier;
use wit_gates::{CondGate, Gate, SpinGate};
use wit_locks::{Mtx, abandon};
use wit_model::{Call, Entry, Fault, Limits, Site};
use wit_shared::{Observer, Program, Room, Seat, Shared};

/// A mutex that is held is asked for again: how many entries the log has then.
#[derive(Drop)]
struct TakenTwice<'a, G: Gate> {
    alloc: Global,
    gate: Counted<'a, G>,
}

impl<R: Wait + Abort, G: Gate + Drop> Program<R> for TakenTwice<'_, G> {
    type Out = usize;

    ghost suits = { λ program start observers. Unit {0} };

    ghost done = { λ program out. Unit {0} };

    fn run<J: Room + Send + Sync>(
        self,
        rt: &R,
        shared: Shared<J>,
        _observers: Vec<Observer<J>>,
    ) -> usize {
        let TakenTwice { alloc, gate } = self;
        let mut seat = a_seat(rt, &shared);
        let site = a_site(rt, &shared, &mut seat);
        let mutex = a_mutex(rt, &shared, &mut seat, "m", gate);
        let held = taken(rt, &shared, &mut seat, &mutex, site);
        not_granted(
            rt,
            mutex.lock(rt, &shared, &mut seat, site),
            Fault::Recursed,
        );
        abandon(held);
        closed(rt, alloc, shared, seat).history().len()
    }
}

fn takes_twice<R: Wait + Abort, G: Gate + Drop>(rt: &R, alloc: Global, inner: G) {
    let counts = Counts::new();
    let gate = Counted {
        inner,
        counts: &counts,
    };
    assert_eq!(rt; run_with(rt, alloc, 2, 64, TakenTwice { alloc, gate }), 3);
    assert_eq!(rt; counts.all(), [1, 0, 0, 0, 0]);
}

#[test]
fn a_refused_check_enters_no_gate(rt: HostRuntime) -> Result<(), Fail> {
    let alloc = rt.alloc();
    takes_twice(&rt, alloc, CondGate::new(alloc)?);
    takes_twice(&rt, alloc, SpinGate::new(alloc)?);
    Ok(())
}

/// A mutex whose gate lets nobody in, and that is then destroyed.
#[derive(Drop)]
struct ShutOut {
    alloc: Global,
}

impl<R: Wait + Abort> Program<R> for ShutOut {
    type Out = Verifier;

    ghost suits = { λ program start observers. Unit {0} };

    ghost done = { λ program out. Unit {0} };

    fn run<J: Room + Send + Sync>(
        self,
        rt: &R,
        shared: Shared<J>,
        _observers: Vec<Observer<J>>,
    ) -> Verifier {
        let mut seat = a_seat(rt, &shared);
        let site = a_site(rt, &shared, &mut seat);
        let mutex = a_mutex(rt, &shared, &mut seat, "m", Shut { mark: 7 });
        not_granted(
            rt,
            mutex.lock(rt, &shared, &mut seat, site),
            Fault::GateRefused,
        );
        match mutex.destroy(rt, &shared, &mut seat) {
            Ok(gate) => assert_eq!(rt; gate.mark, 7),
            Err((_, fault)) => panic!(rt; "not destroyed: {fault}"),
        }
        closed(rt, self.alloc, shared, seat)
    }
}

/// What an entry is of, where a refused acquisition makes such entries.
fn word_of(entry: &Entry) -> &'static str {
    match &entry.call {
        Call::Init(_) => "init",
        Call::Check(_) => "check",
        Call::GiveUp(_) => "give up",
        Call::Destroy(_) => "destroy",
        _ => "another",
    }
}

#[test]
fn a_gate_that_lets_nobody_in(rt: HostRuntime) -> Result<(), Fail> {
    let alloc = rt.alloc();
    let verifier = run_with(&rt, alloc, 2, 64, ShutOut { alloc });
    let mut words = verifier.history().iter().map(word_of);
    assert_eq!(rt; words.next(), Some("init"));
    assert_eq!(rt; words.next(), Some("check"));
    assert_eq!(rt; words.next(), Some("give up"));
    assert_eq!(rt; words.next(), Some("destroy"));
    assert_eq!(rt; words.next(), None);
    Ok(())
}

/// Asks for a lock and lets it go: what comes out of it otherwise.
fn take<R: Wait, J: Room, G: Gate>(
    rt: &R,
    shared: &Shared<J>,
    seat: &mut Seat<J>,
    mutex: &Mtx<J, G>,
    site: Site,
) -> Result<(), Fault> {
    let held = mutex.lock(rt, shared, seat, site)?;
    match mutex.unlock(rt, shared, seat, held) {
        Ok(left) => match left {
            None => Ok(()),
            Some(held) => {
                abandon(held);
                unreachable!()
            }
        },
        Err((held, fault)) => {
            abandon(held);
            Err(fault)
        }
    }
}

/// All seats there are, and a log that is full.
#[derive(Drop)]
struct Crowded<'a> {
    gate: Counted<'a, CondGate>,
}

impl<R: Wait + Abort> Program<R> for Crowded<'_> {
    type Out = ();

    ghost suits = { λ program start observers. Unit {0} };

    ghost done = { λ program out. Unit {0} };

    fn run<J: Room + Send + Sync>(self, rt: &R, shared: Shared<J>, _observers: Vec<Observer<J>>) {
        let mut seat = a_seat(rt, &shared);
        for number in 2..=256 {
            let other = a_seat(rt, &shared);
            assert_eq!(rt; other.number().0, number);
            other.abandon();
        }
        match shared.seat(rt) {
            Ok(other) => {
                other.abandon();
                panic!(rt; "a seat too many")
            }
            Err(fault) => assert_eq!(rt; fault, Fault::UnknownSeat),
        }
        let site = a_site(rt, &shared, &mut seat);
        let mutex = a_mutex(rt, &shared, &mut seat, "m", self.gate);
        assert_eq!(rt; take(rt, &shared, &mut seat, &mutex, site), Ok(()));
        assert_eq!(rt;
            take(rt, &shared, &mut seat, &mutex, site),
            Err(Fault::LogFull)
        );
        seat.abandon();
        shared.abandon(rt);
    }
}

#[test]
fn a_full_log_enters_no_gate(rt: HostRuntime) -> Result<(), Fail> {
    let counts = Counts::new();
    let gate = Counted {
        inner: CondGate::new(rt.alloc())?,
        counts: &counts,
    };
    run_with(&rt, rt.alloc(), 256, 5, Crowded { gate });
    assert_eq!(rt; counts.all(), [1, 0, 1, 0, 0]);
    Ok(())
}

/// A mutex after 120 others, had by a try and then by a request.
#[derive(Drop)]
struct Late {
    alloc: Global,
}

impl<R: Wait + Abort> Program<R> for Late {
    type Out = ();

    ghost suits = { λ program start observers. Unit {0} };

    ghost done = { λ program out. Unit {0} };

    fn run<J: Room + Send + Sync>(self, rt: &R, shared: Shared<J>, _observers: Vec<Observer<J>>) {
        let alloc = self.alloc;
        let mut seat = a_seat(rt, &shared);
        let site = a_site(rt, &shared, &mut seat);
        for _ in 0..120 {
            let gate = CondGate::new(alloc).ok().expect(rt, "memory");
            let _mutex = a_mutex(rt, &shared, &mut seat, "m", gate);
        }
        let gate = CondGate::new(alloc).ok().expect(rt, "memory");
        let mutex = a_mutex(rt, &shared, &mut seat, "m", gate);
        assert_eq!(rt; mutex.number().0, 121);
        let held = tried(rt, mutex.try_lock(rt, &shared, &mut seat, site));
        assert!(rt; held.asked().is_none(), "a try asks for nothing");
        let_go(rt, &shared, &mut seat, &mutex, held);
        assert_eq!(rt; take(rt, &shared, &mut seat, &mutex, site), Ok(()));
        closed(rt, alloc, shared, seat);
    }
}

#[test]
fn a_lock_with_a_large_number(rt: HostRuntime) -> Result<(), Fail> {
    let alloc = rt.alloc();
    run_within(
        &rt,
        alloc,
        Limits::new(1, 8, 200, 32, 200),
        0,
        Late { alloc },
    );
    Ok(())
}
