//! The token of a seat.

ghost use Rattle.std.specs.Prelude.{◌≡◌};
ghost use Rattle.wit_seats.specs.Seats.{IsKnowledge};

use crate::room::Room;
use crate::rule::LedgerCard;
use std::marker::{Model, PhantomData};
use wit_model::SeatNo;

/// The token of a seat of a shared verifier, for one thread. It lists the seat's own entries of the
/// log, the files that it was given, and the log as the seat has seen it, which is a legal history
/// whose entries of the seat are its own. These lists take no memory: at run time a token is a
/// number. It can't be copied.
///
/// It isn't `Drop`: it has to be given back to `close` of its verifier, or abandoned. So no code
/// can have a seat for a moment, log by it, and let it go.
pub struct Seat<J: Room> {
    pub(crate) number: SeatNo,
    pub(crate) card: LedgerCard,
    pub(crate) room: PhantomData<J>,
}

impl<J: Room> Model for Seat<J> {
    ghost use Rattle.std.specs.Prelude.{◌≡◌, None, Some};
    ghost use Rattle.wit_seats.specs.declared.views.SeatKnowledge.{SeatKnowledge};

    ghost Value = { SeatKnowledge };

    ghost use Rattle.wit_seats.specs.Rule.{shows};
    ghost use Rattle.wit_seats.specs.Seats.{IsKnowledge};
    ghost use Rattle.wit_seats.specs.Shown.{knowledge_in};

    ghost view = { λ s. knowledge_in s.card.me.0 };

    ghost invariant = { λ s. (s.card.table_id ≡ J.table)
        × (s.card.me.0 ≡ shows None (Some (knowledge_in s.card.me.0)))
        × ((knowledge_in s.card.me.0).seat ≡ s.number.0)
        × IsKnowledge J.start (knowledge_in s.card.me.0) };
}

impl<J: Room> Seat<J> {
    /// Its number, from 1.
    pub fn number(&self) -> SeatNo
        ensures { result.0 ≡ self.now.seat }
    {
        self.number
    }

    /// Gives it up. Its verifier can then be abandoned, and not closed.
    pub fn abandon(self) {
        let Seat {
            number: _,
            card: _,
            room: _,
        } = self;
    }
}

/// Gives up all of these.
pub fn abandon_all<J: Room>(mut seats: Vec<Seat<J>>) {
    while let Some(seat) = seats.pop() {
        seat.abandon();
    }
    seats.destroy_empty();
}
