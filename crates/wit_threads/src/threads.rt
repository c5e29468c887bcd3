//! A thread that waits at a gate doesn't keep others from the verifier.

ghost use Rattle.std.specs.Prelude.{◌≡◌};
ghost use Rattle.wit_gates.specs.Tickets.{pass};

use crate::tokens::{let_go, taken};
use crate::verifiers::{a_mutex, a_seat, a_site, named, opened};
use std::alloc::Global;
use std::marker::Brand;
use std::process::Abort;
use std::sync::Wait;
use std::sync::atomic::{AtomicBool, Ordering};
use std::test::Fail;
use std::thread::{self, Threads, join};
use wit_gates::{CondGate, Gate, Met};
use wit_locks::Mtx;
use wit_model::{Fault, Limits, Mode, Site};
use wit_shared::{OpenedVerifier, Room, Seat, Shared};

// How often a thread looks whether the other one has got on.
const LOOKS: u32 = 1_000_000;

/// What two threads tell each other.
#[derive(Drop)]
struct Signals {
    begin: AtomicBool,
    finished: AtomicBool,
}

impl Signals {
    /// Looks whether a signal was given, for a while.
    fn is_given(signal: &AtomicBool) -> bool {
        for _ in 0..LOOKS {
            if signal.load(Ordering::SeqCst) {
                return true;
            }
            thread::yield_now();
        }
        false
    }
}

/// A gate that lets another thread begin, and is entered only once that has finished.
#[derive(Drop)]
struct Patient<'a> {
    inner: CondGate,
    signals: &'a Signals,
}

impl Gate for Patient<'_> {
    type Ticket = wit_gates::Ticket;

    // None: the other thread doesn't come.
    type Met = Option<Met>;

    ghost admits = { λ gate mode ticket. ticket ≡ pass gate.inner mode };

    ghost bars = { λ gate mode met. Unit {0} };

    ghost refuses = { λ gate mode met. Unit {0} };

    ghost crowds = { λ gate met. Unit {0} };

    fn acquire<J: Room, R: Wait>(
        &self,
        rt: &R,
        seat: &Seat<J>,
        mode: Mode,
    ) -> Result<wit_gates::Ticket, Option<Met>> {
        self.signals.begin.store(true, Ordering::SeqCst);
        if !Signals::is_given(&self.signals.finished) {
            return Err(None);
        }
        self.inner.acquire(rt, seat, mode).map_err(Some)
    }

    fn try_acquire<R: Wait>(&self, rt: &R, mode: Mode) -> Result<wit_gates::Ticket, Option<Met>> {
        self.inner.try_acquire(rt, mode).map_err(Some)
    }

    fn release<R: Wait>(&self, rt: &R, mode: Mode, ticket: wit_gates::Ticket) {
        self.inner.release(rt, mode, ticket)
    }

    fn try_upgrade<R: Wait>(
        &self,
        rt: &R,
        ticket: wit_gates::Ticket,
    ) -> Result<wit_gates::Ticket, (wit_gates::Ticket, Option<Met>)> {
        match self.inner.try_upgrade(rt, ticket) {
            Ok(ticket) => Ok(ticket),
            Err((ticket, met)) => Err((ticket, Some(met))),
        }
    }

    fn downgrade<R: Wait>(&self, rt: &R, ticket: wit_gates::Ticket) -> wit_gates::Ticket {
        self.inner.downgrade(rt, ticket)
    }

    fn abandon(ticket: wit_gates::Ticket) {
        ticket.abandon();
    }
}

/// Takes a mutex and lets it go.
fn take<J: Room, G: Gate, R: Wait + Abort>(
    rt: &R,
    shared: &Shared<J>,
    seat: &mut Seat<J>,
    mutex: &Mtx<J, G>,
    site: Site,
) {
    let held = taken(rt, shared, seat, mutex, site);
    let_go(rt, shared, seat, mutex, held);
}

/// Takes a mutex once the other thread lets it begin, and tells that it has.
fn take_meanwhile<J: Room, R: Wait + Abort>(
    rt: &R,
    shared: &Shared<J>,
    seat: &mut Seat<J>,
    mutex: &Mtx<J, CondGate>,
    site: Site,
    signals: &Signals,
) -> bool {
    let begun = Signals::is_given(&signals.begin);
    take(rt, shared, seat, mutex, site);
    signals.finished.store(true, Ordering::SeqCst);
    begun
}

/// One thread waits at a gate for the other, which takes another mutex meanwhile.
fn wait_for_one_another<J: Room + Send + Sync, R: Threads + Wait + Abort + Sync>(
    rt: &R,
    alloc: Global,
    opened: OpenedVerifier,
    signals: &Signals,
) -> Result<bool, Fault>
    requires { (opened.story.start ≡ J.start) × (opened.table ≡ J.table) × (opened.list ≡ J.list) }
{
    let shared = named::<R, J>(rt, opened);
    let begun = wait_with(rt, alloc, &shared, signals);
    shared.abandon(rt);
    begun
}

fn wait_with<J: Room + Send + Sync, R: Threads + Wait + Abort + Sync>(
    rt: &R,
    alloc: Global,
    shared: &Shared<J>,
    signals: &Signals,
) -> Result<bool, Fault> {
    let gate = Patient {
        inner: CondGate::new(alloc)?,
        signals,
    };
    let plain = CondGate::new(alloc)?;
    let mut one = a_seat(rt, shared);
    let mut two = a_seat(rt, shared);
    let site = a_site(rt, shared, &mut one);
    let patient = a_mutex(rt, shared, &mut one, "a", gate);
    let other = a_mutex(rt, shared, &mut one, "b", plain);
    let (watched, mutex) = (shared, &other);
    let ((), begun) = join(
        rt,
        || take(rt, watched, &mut one, &patient, site),
        || take_meanwhile(rt, watched, &mut two, mutex, site, signals),
    );
    one.abandon();
    two.abandon();
    Ok(begun)
}

#[test]
fn a_gate_is_entered_outside_the_lock_of_the_verifier(rt: HostRuntime) -> Result<(), Fail> {
    let signals = Signals {
        begin: AtomicBool::new(false),
        finished: AtomicBool::new(false),
    };
    let alloc = rt.alloc();
    let begun = wait_for_one_another::<Brand, HostRuntime>(
        &rt,
        alloc,
        opened(&rt, alloc, Limits::new(2, 8, 16, 32, 64)),
        &signals,
    )?;
    assert!(rt; begun);
    Ok(())
}
