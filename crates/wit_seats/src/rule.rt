//! The rule over the log and the seats, and the steps that keep it.

ghost use Rattle.std.specs.Prelude.{◌≡◌};

use crate::room::VerifierStep;
use crate::views::CardView;
use atomic_table::{Join, Play, Split, Table, TableRule};
use std::alloc::Global;
use std::marker::PhantomData;

/// The table's rule. Its words say nothing: what it keeps is what its cards stand for.
pub struct Rule;

impl TableRule<(), CardView, ()> for Rule {
    ghost use Rattle.std.specs.Prelude.{[], None, Some};
    ghost use Rattle.wit_seats.specs.Rule.{Kept, shows, journal};

    ghost holds = { λ _ s. Kept s.views };

    ghost first = { λ _. shows (Some (journal [] [] 0)) None };
}

/// A seat is taken off a card, or put to one.
pub struct Parts;

impl Split<CardView> for Parts {
    ghost use Rattle.wit_seats.specs.Rule.{without, alone};

    ghost left = { without };

    ghost right = { alone };
}

impl Join<CardView> for Parts {
    ghost use Rattle.std.specs.Prelude.{None};
    ghost use Rattle.wit_seats.specs.Rule.{with_guest, shows};

    ghost both = { with_guest };

    ghost spent = { shows None None };
}

/// The next seat is handed out.
pub struct Hands;

impl Split<CardView> for Hands {
    ghost use Rattle.wit_seats.specs.Rule.{with_next, handed_out};

    ghost left = { with_next };

    ghost right = { handed_out };
}

/// The log and a seat follow a step.
pub struct Follows<E> {
    step: PhantomData<E>,
}

impl<E: VerifierStep> Play<(), CardView> for Follows<E> {
    ghost use Rattle.wit_seats.specs.Rule.{Plays};

    ghost then = { Plays E.after E.given };
}

/// The table behind a log.
pub type Ledger = Table<(), CardView, (), Rule, Global>;

/// A card of the ledger: the kit calls it a seat of its table. It has no bytes.
pub type LedgerCard = atomic_table::Seat<(), CardView>;
