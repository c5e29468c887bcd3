//! A gate that refuses now and then.

ghost use Rattle.std.specs.Prelude.{◌≡◌};
ghost use Rattle.wit_gates.specs.Tickets.{pass};

use std::alloc::Global;
use std::sync::Wait;
use std::sync::atomic::{AtomicBool, AtomicU64, Ordering};
use wit_gates::{CondGate, Gate, Met, Ticket};
use wit_model::{Fault, Mode};
use wit_shared::{Room, Seat};

// Which of those who ask is let down.
const UNLUCKY: u64 = 41;

/// A gate that lets down each forty-first who would wait at it.
#[derive(Drop)]
pub(crate) struct Fickle {
    inner: CondGate,
    asked: AtomicU64,
    // Whether the gate within let somebody down by itself.
    wronged: AtomicBool,
}

impl Fickle {
    /// One that nobody has.
    ///
    /// # Errors
    /// Want of memory.
    pub(crate) fn new(alloc: Global) -> Result<Fickle, Fault> {
        Ok(Fickle {
            inner: CondGate::new(alloc)?,
            asked: AtomicU64::new(0),
            wronged: AtomicBool::new(false),
        })
    }

    /// Whether nobody was let down but by its turn.
    pub(crate) fn is_right(&self) -> bool {
        !self.wronged.load(Ordering::SeqCst)
    }
}

impl Gate for Fickle {
    type Ticket = Ticket;

    // None: whoever asked is let down by its turn.
    type Met = Option<Met>;

    ghost admits = { λ gate mode ticket. ticket ≡ pass gate.inner mode };

    ghost bars = { λ gate mode met. Unit {0} };

    ghost refuses = { λ gate mode met. Unit {0} };

    ghost crowds = { λ gate met. Unit {0} };

    fn acquire<J: Room, R: Wait>(
        &self,
        rt: &R,
        seat: &Seat<J>,
        mode: Mode,
    ) -> Result<Ticket, Option<Met>> {
        if self.asked.fetch_add(1, Ordering::Relaxed) % UNLUCKY == UNLUCKY - 1 {
            return Err(None);
        }
        match self.inner.acquire(rt, seat, mode) {
            Ok(ticket) => Ok(ticket),
            Err(met) => {
                self.wronged.store(true, Ordering::SeqCst);
                Err(Some(met))
            }
        }
    }

    fn try_acquire<R: Wait>(&self, rt: &R, mode: Mode) -> Result<Ticket, Option<Met>> {
        self.inner.try_acquire(rt, mode).map_err(Some)
    }

    fn release<R: Wait>(&self, rt: &R, mode: Mode, ticket: Ticket) {
        self.inner.release(rt, mode, ticket)
    }

    fn try_upgrade<R: Wait>(
        &self,
        rt: &R,
        ticket: Ticket,
    ) -> Result<Ticket, (Ticket, Option<Met>)> {
        match self.inner.try_upgrade(rt, ticket) {
            Ok(ticket) => Ok(ticket),
            Err((ticket, met)) => Err((ticket, Some(met))),
        }
    }

    fn downgrade<R: Wait>(&self, rt: &R, ticket: Ticket) -> Ticket {
        self.inner.downgrade(rt, ticket)
    }

    fn abandon(ticket: Ticket) {
        ticket.abandon();
    }
}
