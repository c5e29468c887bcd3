//! What who gave a ticket back has in hand.

ghost use Rattle.std.specs.Prelude.{◌≡◌, []};
ghost use Rattle.wit_gates.specs.Claims.{gone, mode_gone};
ghost use Rattle.wit_gates.specs.Tickets.{Pass};

use crate::claim::Claim;
use atomic_table::Seat;
use std::marker::Model;

/// What a word gives for a ticket: that a step took it back, and in which mode it was. Only such a
/// step gives one.
///
/// Contracts see it as that word and the mode.
#[derive(Drop)]
pub struct Left {
    pub(crate) seat: Seat<(), Claim>,
}

impl Model for Left {
    ghost Value = { Pass };

    ghost view = { λ l. record { word = l.seat.table_id; mode = mode_gone l.seat.me.0 } };

    ghost invariant = { λ l. l.seat.me ≡ (gone (mode_gone l.seat.me.0), []) };
}
