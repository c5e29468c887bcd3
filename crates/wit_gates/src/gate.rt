//! What a lock asks of a gate.

ghost use Rattle.std.specs.Prelude.{◌≡◌, Some, MatchResult};
ghost use Rattle.wit_model.specs.declared.locks.Mode.{Mode};
ghost use Rattle.wit_model.specs.declared.locks.Mode.TheVariants.{Shared, Exclusive};
ghost use Rattle.wit_gates.specs.Asking.{latest_mode_asked};

use std::sync::Wait;
use wit_model::Mode;
use wit_seats::{Room, Seat};

/// Lets threads in, one alone or many that share it.
///
/// With each answer that lets one in goes a ticket of this gate, which it takes back at the end.
/// Each call may wait for the others to leave a short section of the gate's.
pub trait Gate {
    /// What who was let in has. It needn't be `Drop`: then who has one must give it back, or
    /// abandon it.
    type Ticket;

    /// What who wasn't let in has: how it met the gate.
    type Met: Drop;

    /// The ticket is one of this gate, in this mode.
    ghost admits: { Self → Mode → Self.Ticket → Type 0 };

    /// The gate was met so that it lets nobody in in this mode.
    ghost bars: { Self → Mode → Self.Met → Type 0 };

    /// The gate is full: even a waiting request in this mode is refused.
    ghost refuses: { Self → Mode → Self.Met → Type 0 };

    /// The gate was met with more out than one share.
    ghost crowds: { Self → Self.Met → Type 0 };

    /// Lets in a seat that just checked its request of the lock, and waits until it can. It
    /// refuses only where as many share the gate as can.
    fn acquire<J: Room, R: Wait>(
        &self,
        rt: &R,
        seat: &Seat<J>,
        mode: Mode,
    ) -> Result<Self::Ticket, Self::Met>
        requires { latest_mode_asked seat.now.own ≡ Some mode }
        ensures { MatchResult result (admits self.now mode) (refuses self.now mode) };

    /// Lets the caller in if that needs no waiting.
    fn try_acquire<R: Wait>(&self, rt: &R, mode: Mode) -> Result<Self::Ticket, Self::Met>
        ensures { MatchResult result (admits self.now mode) (bars self.now mode) };

    /// Takes a ticket back.
    fn release<R: Wait>(&self, rt: &R, mode: Mode, ticket: Self::Ticket)
        requires { admits self.now mode ticket };

    /// The exclusive hold for a share, where nobody else has one. Else a share comes back.
    fn try_upgrade<R: Wait>(
        &self,
        rt: &R,
        ticket: Self::Ticket,
    ) -> Result<Self::Ticket, (Self::Ticket, Self::Met)>
        requires { admits self.now Shared ticket }
        ensures { MatchResult result (admits self.now Exclusive)
            (λ e. admits self.now Shared e.0 × crowds self.now e.1) };

    /// A share for the exclusive hold.
    fn downgrade<R: Wait>(&self, rt: &R, ticket: Self::Ticket) -> Self::Ticket
        requires { admits self.now Exclusive ticket }
        ensures { admits self.now Shared result };

    /// Gives up a ticket, which counts as out for good.
    fn abandon(ticket: Self::Ticket);
}
