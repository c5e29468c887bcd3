//! What who was let in has in hand.

ghost use Rattle.std.specs.Prelude.{◌≡◌, []};
ghost use Rattle.wit_gates.specs.Claims.{claim_of, mode_of};
ghost use Rattle.wit_gates.specs.Tickets.{Pass};

use crate::claim::Claim;
use atomic_table::Seat;
use std::marker::Model;

/// What a gate gives to whom it lets in: that it did, and in which mode. It has no bytes, can't be
/// copied, and names its gate's word.
///
/// Contracts see it as that word and the mode. It isn't `Drop`: it has to be given back to its
/// gate, or abandoned.
pub struct Ticket {
    pub(crate) seat: Seat<(), Claim>,
}

impl Model for Ticket {
    ghost Value = { Pass };

    ghost view = { λ t. record { word = t.seat.table_id; mode = mode_of t.seat.me.0 } };

    ghost invariant = { λ t. t.seat.me ≡ (claim_of (mode_of t.seat.me.0), []) };
}

impl Ticket {
    /// Gives it up: it counts as out for good.
    pub fn abandon(self) {
        let Ticket { seat: _ } = self;
    }
}
