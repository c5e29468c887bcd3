//! What who wasn't let in has in hand.

ghost use Rattle.std.specs.Prelude.{◌≡◌, []};
ghost use Rattle.wit_gates.specs.Claims.{unmatched};
ghost use Rattle.wit_gates.specs.Tickets.{Meeting};

use crate::claim::Claim;
use atomic_table::Seat;
use std::marker::Model;

/// How many can share a gate.
pub(crate) const MOST_SHARES: u64 = 4_294_967_294;

/// The word of a gate that somebody has alone.
pub(crate) const EXCLUSIVE: u64 = 4_294_967_295;

/// What a gate gives to whom it doesn't let in: the word as a step met it. Only a step on that word
/// gives one. Nobody sees the number, but can ask what it means: whether the gate is free, full, or
/// had by one alone.
///
/// Contracts see it as that word's name and the number.
#[derive(Drop)]
pub struct Met {
    seat: Seat<(), Claim>,
    found: u64,
}

impl Model for Met {
    ghost Value = { Meeting };

    ghost view = { λ m. record { word = m.seat.table_id; met = m.found } };

    ghost invariant = { λ m. m.seat.me ≡ (unmatched m.found, []) };
}

impl Met {
    ghost use Rattle.std.specs.Prelude.{◌==◌};
    ghost use Rattle.wit_model.specs.Gates.{exclusive_word, most_shares};

    // What this seat met.
    pub(crate) fn of(seat: Seat<(), Claim>, found: u64) -> Met
        requires { seat.me ≡ (unmatched found, []) }
        ensures word { result.word ≡ seat.table_id }
        ensures met { result.met ≡ found }
    {
        Met { seat, found }
    }

    /// Whether nobody had the gate.
    pub fn is_free(&self) -> bool
        ensures { result ≡ (self.now.met == 0) }
    {
        self.found == 0
    }

    /// Whether somebody had the gate alone.
    pub fn is_exclusive(&self) -> bool
        ensures { result ≡ (self.now.met == exclusive_word) }
    {
        self.found == EXCLUSIVE
    }

    /// Whether as many shared the gate as can.
    pub fn is_full(&self) -> bool
        ensures { result ≡ (self.now.met == most_shares) }
    {
        self.found == MOST_SHARES
    }
}
