//! A gate, whatever its waiters do.

ghost use Rattle.std.specs.Prelude.{◌≡◌};
ghost use Rattle.atomic_table.specs.Seated.{TableId};

use crate::gate::Gate;
use crate::met::Met;
use crate::ticket::Ticket;
use crate::waiting::{Sleeping, Spinning, Waiting};
use crate::word::{InTurn, Word};
use crossbeam_utils::Backoff;
use std::alloc::Global;
use std::marker::Model;
use std::sync::Wait;
use wit_model::{Fault, Mode};
use wit_seats::{Room, Seat};

/// Lets in one thread alone, or up to 4,294,967,294 that share it. `W` is how who must wait does so.
///
/// Readers come in as long as no writer is in, also before a writer that waits. Contracts see which
/// word it has.
#[derive(Drop)]
pub struct WaitGate<W> {
    word: Word,
    waiting: W,
}

/// A gate whose waiters sleep.
pub type CondGate = WaitGate<Sleeping>;

/// A gate whose waiters try again, ever less often.
pub type SpinGate = WaitGate<Spinning>;

impl<W> Model for WaitGate<W> {
    ghost Value = { TableId };

    ghost view = { λ g. g.word };
}

impl<W: Waiting> WaitGate<W> {
    ghost use Rattle.std.specs.Prelude.{IfErr, MatchResult};
    ghost use Rattle.wit_model.specs.declared.faults.Fault.TheVariants.{OutOfMemory};
    ghost use Rattle.wit_model.specs.declared.locks.Mode.TheVariants.{Shared};
    ghost use Rattle.wit_gates.specs.Tickets.{IsBarred, IsFull, pass};

    /// A gate that nobody has.
    ///
    /// # Errors
    /// [`Fault::OutOfMemory`] alone.
    pub fn new(alloc: Global) -> Result<WaitGate<W>, Fault>
        ensures { IfErr result (λ fault. fault ≡ OutOfMemory) }
    {
        let (word, turn) = Word::new(alloc)?;
        Ok(WaitGate {
            word,
            waiting: W::new(turn),
        })
    }

    // One try.
    fn try_enter<R: Wait>(&self, rt: &R, turn: &InTurn<'_>, mode: Mode) -> Result<Ticket, Met>
        ensures { MatchResult result (λ t. t ≡ pass self.now mode) (IsBarred self.now mode) }
    {
        match mode {
            Mode::Shared => self.word.try_share(rt, turn),
            Mode::Exclusive => self.word.try_exclusive(turn),
        }
    }

    // Waits until the gate lets one in so, and refuses only where as many share it as can.
    pub(crate) fn enter<R: Wait>(&self, rt: &R, mode: Mode) -> Result<Ticket, Met>
        ensures { MatchResult result (λ t. t ≡ pass self.now mode) (IsFull self.now mode) }
    {
        let patience = Backoff::new();
        let mut turn = self.waiting.turn(rt);
        for _ in rt.forever() {
            match self.try_enter(rt, &turn, mode) {
                Ok(ticket) => return Ok(ticket),
                Err(met) => {
                    if matches!(mode, Mode::Shared) && met.is_full() {
                        return Err(met);
                    }
                }
            }
            turn = self.waiting.wait(rt, turn, &self.word, mode, &patience);
        }
        unreachable!()
    }

    /// Of two tickets that are out together neither is exclusive: who has the gate alone is alone.
    /// Both come back.
    pub fn pair(&self, one: Ticket, other: Ticket) -> (Ticket, Ticket)
        requires { (one.word ≡ self.now) × (other.word ≡ self.now) }
        ensures shares { (one.mode ≡ Shared) × (other.mode ≡ Shared) }
        ensures same { result ≡ (one, other) }
    {
        self.word.pair(one, other)
    }
}

impl<W: Waiting> Gate for WaitGate<W> {
    ghost use Rattle.wit_gates.specs.Tickets.{IsBarred, IsCrowded, IsFull, pass};

    type Ticket = Ticket;

    type Met = Met;

    ghost admits = { λ gate mode ticket. ticket ≡ pass gate mode };

    ghost bars = { IsBarred };

    ghost refuses = { IsFull };

    ghost crowds = { IsCrowded };

    fn acquire<J: Room, R: Wait>(&self, rt: &R, seat: &Seat<J>, mode: Mode) -> Result<Ticket, Met> {
        let _ = seat;
        self.enter(rt, mode)
    }

    fn try_acquire<R: Wait>(&self, rt: &R, mode: Mode) -> Result<Ticket, Met> {
        self.try_enter(rt, &self.waiting.turn(rt), mode)
    }

    fn release<R: Wait>(&self, rt: &R, mode: Mode, ticket: Ticket) {
        let turn = self.waiting.turn(rt);
        let _left = self.word.free(&turn, mode, ticket);
        self.waiting.wake();
    }

    fn try_upgrade<R: Wait>(&self, rt: &R, ticket: Ticket) -> Result<Ticket, (Ticket, Met)> {
        self.word.try_upgrade(&self.waiting.turn(rt), ticket)
    }

    fn downgrade<R: Wait>(&self, rt: &R, ticket: Ticket) -> Ticket {
        let turn = self.waiting.turn(rt);
        let share = self.word.downgrade(&turn, ticket);
        self.waiting.wake();
        share
    }

    fn abandon(ticket: Ticket) {
        ticket.abandon();
    }
}
