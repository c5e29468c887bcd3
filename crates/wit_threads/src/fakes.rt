//! Gates that no program would have.

ghost use Rattle.wit_model.specs.declared.locks.Mode.{Mode};

use std::sync::Wait;
use std::sync::atomic::{AtomicU64, Ordering};
use wit_gates::Gate;
use wit_model::Mode;
use wit_shared::{Room, Seat};

/// How often each call of a gate was made.
#[derive(Drop)]
pub(crate) struct Counts {
    pub(crate) acquires: AtomicU64,
    pub(crate) tries: AtomicU64,
    pub(crate) releases: AtomicU64,
    pub(crate) upgrades: AtomicU64,
    pub(crate) downgrades: AtomicU64,
}

impl Counts {
    /// No call yet.
    pub(crate) fn new() -> Counts {
        Counts {
            acquires: AtomicU64::new(0),
            tries: AtomicU64::new(0),
            releases: AtomicU64::new(0),
            upgrades: AtomicU64::new(0),
            downgrades: AtomicU64::new(0),
        }
    }

    /// The counts, in the order of the fields.
    pub(crate) fn all(&self) -> [u64; 5] {
        [
            self.acquires.load(Ordering::SeqCst),
            self.tries.load(Ordering::SeqCst),
            self.releases.load(Ordering::SeqCst),
            self.upgrades.load(Ordering::SeqCst),
            self.downgrades.load(Ordering::SeqCst),
        ]
    }
}

/// A gate that counts its calls.
#[derive(Drop)]
pub(crate) struct Counted<'a, G: Gate> {
    pub(crate) inner: G,
    pub(crate) counts: &'a Counts,
}

impl<G: Gate> Gate for Counted<'_, G> {
    type Ticket = G::Ticket;

    type Met = G::Met;

    ghost admits = { λ gate. G.admits gate.inner };

    ghost bars = { λ gate. G.bars gate.inner };

    ghost refuses = { λ gate. G.refuses gate.inner };

    ghost crowds = { λ gate. G.crowds gate.inner };

    fn acquire<J: Room, R: Wait>(
        &self,
        rt: &R,
        seat: &Seat<J>,
        mode: Mode,
    ) -> Result<G::Ticket, G::Met> {
        self.counts.acquires.fetch_add(1, Ordering::SeqCst);
        self.inner.acquire(rt, seat, mode)
    }

    fn try_acquire<R: Wait>(&self, rt: &R, mode: Mode) -> Result<G::Ticket, G::Met> {
        self.counts.tries.fetch_add(1, Ordering::SeqCst);
        self.inner.try_acquire(rt, mode)
    }

    fn release<R: Wait>(&self, rt: &R, mode: Mode, ticket: G::Ticket) {
        self.counts.releases.fetch_add(1, Ordering::SeqCst);
        self.inner.release(rt, mode, ticket)
    }

    fn try_upgrade<R: Wait>(
        &self,
        rt: &R,
        ticket: G::Ticket,
    ) -> Result<G::Ticket, (G::Ticket, G::Met)> {
        self.counts.upgrades.fetch_add(1, Ordering::SeqCst);
        self.inner.try_upgrade(rt, ticket)
    }

    fn downgrade<R: Wait>(&self, rt: &R, ticket: G::Ticket) -> G::Ticket {
        self.counts.downgrades.fetch_add(1, Ordering::SeqCst);
        self.inner.downgrade(rt, ticket)
    }

    fn abandon(ticket: G::Ticket) {
        G::abandon(ticket);
    }
}

/// A gate that lets nobody in.
#[derive(Drop)]
pub(crate) struct Shut {
    pub(crate) mark: u32,
}

impl Gate for Shut {
    type Ticket = ();

    type Met = ();

    ghost admits = { λ gate mode ticket. Unit {0} };

    ghost bars = { λ gate mode met. Unit {0} };

    ghost refuses = { λ gate mode met. Unit {0} };

    ghost crowds = { λ gate met. Unit {0} };

    fn acquire<J: Room, R: Wait>(&self, _rt: &R, _seat: &Seat<J>, _mode: Mode) -> Result<(), ()> {
        Err(())
    }

    fn try_acquire<R: Wait>(&self, _rt: &R, _mode: Mode) -> Result<(), ()> {
        Err(())
    }

    fn release<R: Wait>(&self, _rt: &R, _mode: Mode, _ticket: ()) {}

    fn try_upgrade<R: Wait>(&self, _rt: &R, ticket: ()) -> Result<(), ((), ())> {
        Err((ticket, ()))
    }

    fn downgrade<R: Wait>(&self, _rt: &R, ticket: ()) {
        ticket
    }

    fn abandon(_ticket: ()) {}
}
