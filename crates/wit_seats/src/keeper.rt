//! The keeper of a log, which hands out its seats and follows what they log.

ghost use Rattle.std.specs.Prelude.{◌≡◌, ℕ, ◌+◌, ◌<◌, ◌++◌, List, [], None, Some, IfOk};
ghost use Rattle.wit_model.specs.Rules.History.{own_entries};
ghost use Rattle.wit_model.specs.Rules.Step.{IsLegal};
ghost use Rattle.wit_seats.specs.Rule.{shows, without, alone, with_guest, with_next, handed_out};
ghost use Rattle.wit_seats.specs.Rule.{journal, newcomer, IsOutside, MayFollow, Followed};
ghost use Rattle.wit_seats.specs.Seats.{AreFiles, Grows, Entered};

use crate::room::{Room, VerifierStep};
use crate::rule::{Follows, Hands, Ledger, LedgerCard, Parts};
use crate::seat::Seat;
use std::alloc::{AllocError, Global};
use std::marker::{Model, PhantomData};
use wit_model::SeatNo;

/// A log that no type names yet: it has no entry and no file, and no seat is out. Clauses see what
/// no other log's table shares with its own.
pub struct OpenedLog {
    ledger: Ledger,
    card: LedgerCard,
}

impl Model for OpenedLog {
    ghost use Rattle.std.specs.Prelude.{◌≡◌, [], None, Some};
    ghost use Rattle.atomic_table.specs.Seated.{TableId};
    ghost use Rattle.wit_seats.specs.Rule.{shows, journal};

    ghost Value = { TableId };

    ghost view = { λ o. o.ledger.shared.table_id };

    ghost invariant = { λ o. (o.card.table_id ≡ o.ledger.shared.table_id)
        × (o.ledger.shared.table_id.words ≡ 1)
        × (o.card.me.0 ≡ shows (Some (journal [] [] 0)) None) };
}

impl Drop for OpenedLog {
    fn drop(self) {
        let OpenedLog { ledger: _, card: _ } = self;
    }
}

/// The keeper of a log, which lies beside the verifier whose log it is. Clauses see it as the log's
/// entries, newest first, its files, and how many seats it handed out. At run time it is an empty
/// table.
pub struct LogKeeper<J: Room> {
    ledger: Ledger,
    card: LedgerCard,
    room: PhantomData<J>,
}

impl<J: Room> Model for LogKeeper<J> {
    ghost use Rattle.std.specs.Prelude.{◌≡◌, ◌<◌, None, Some};
    ghost use Rattle.wit_seats.specs.declared.views.Journal.{Journal};

    ghost Value = { Journal };

    ghost use Rattle.wit_seats.specs.Rule.{shows};
    ghost use Rattle.wit_seats.specs.Shown.{log_in};

    ghost view = { λ k. log_in k.card.me.0 };

    ghost invariant = { λ k. (k.ledger.shared.table_id ≡ J.table) × (k.card.table_id ≡ J.table)
        × (0 < J.table.words)
        × (k.card.me.0 ≡ shows (Some (log_in k.card.me.0)) None) };
}

impl<J: Room> Drop for LogKeeper<J> {
    fn drop(self) {
        let LogKeeper {
            ledger: _,
            card: _,
            room: _,
        } = self;
    }
}

impl OpenedLog {
    /// A new log.
    ///
    /// # Errors
    /// Want of memory alone.
    pub fn new(alloc: Global) -> Result<OpenedLog, AllocError> {
        let (ledger, card) = Ledger::of_words(alloc, &[0], &())?;
        Ok(OpenedLog { ledger, card })
    }

    /// The keeper of the log, under a name.
    pub fn named<J: Room>(self) -> LogKeeper<J>
        requires { self ≡ J.table }
        ensures { result ≡ journal [] [] 0 }
    {
        let OpenedLog { ledger, card } = self;
        LogKeeper {
            ledger,
            card,
            room: PhantomData,
        }
    }
}

// Takes the seat off a card.
fn take_off(ledger: &Ledger, card: &mut LedgerCard) -> LedgerCard
    requires { (card.old.table_id ≡ ledger.now.shared.table_id)
        × (0 < ledger.now.shared.table_id.words) }
    ensures card { (card.new.table_id ≡ card.old.table_id)
        × (card.new.me.0 ≡ without card.old.me.0) }
    ensures taken { (result.table_id ≡ card.old.table_id)
        × (result.me ≡ (alone card.old.me.0, [])) }
{
    ledger.shared.split_seat::<Parts>(card)
}

// Puts a seat to a card.
fn put_to(ledger: &Ledger, card: &mut LedgerCard, seat: LedgerCard)
    requires { (card.old.table_id ≡ ledger.now.shared.table_id)
        × (seat.table_id ≡ ledger.now.shared.table_id)
        × (seat.me.1 ≡ []) × (0 < ledger.now.shared.table_id.words) }
    ensures { (card.new.table_id ≡ card.old.table_id)
        × (card.new.me.0 ≡ with_guest card.old.me.0 seat.me.0) }
{
    ledger.shared.join_seat::<Parts>(card, seat)
}

// Cuts a new seat off the log's card.
fn hand_off(ledger: &Ledger, card: &mut LedgerCard) -> LedgerCard
    requires { (card.old.table_id ≡ ledger.now.shared.table_id)
        × (0 < ledger.now.shared.table_id.words) }
    ensures card { (card.new.table_id ≡ card.old.table_id)
        × (card.new.me.0 ≡ with_next card.old.me.0) }
    ensures seat { (result.table_id ≡ card.old.table_id)
        × (result.me ≡ (handed_out card.old.me.0, [])) }
{
    ledger.shared.split_seat::<Hands>(card)
}

// The log, and the seat that is put to its card, follow a step.
fn follow<E: VerifierStep>(ledger: &Ledger, card: &mut LedgerCard)
    requires table { (card.old.table_id ≡ ledger.now.shared.table_id)
        × (0 < ledger.now.shared.table_id.words) }
    requires step { MayFollow E.after E.given card.old.me.0 }
    ensures table { card.new.table_id ≡ card.old.table_id }
    ensures step { Followed E.after E.given card.old.me.0 card.new.me.0 }
{
    let _ = ledger.shared.load::<Follows<E>>(card, 0);
}

impl<J: Room> LogKeeper<J> {
    /// Hands out the next seat, whose number is given. It has made no entry and has seen the log.
    pub fn hand_out(&mut self, number: SeatNo) -> Seat<J>
        requires number { number.0 ≡ self.old.handed + 1 }
        requires legal { IsLegal J.start self.old.files self.old.entries }
        requires new { own_entries number.0 self.old.entries ≡ [] }
        ensures kept { self.new ≡ journal self.old.entries self.old.files (self.old.handed + 1) }
        ensures given { result ≡ newcomer self.old }
    {
        let card = hand_off(&self.ledger, &mut self.card);
        Seat {
            number,
            card,
            room: PhantomData,
        }
    }

    /// Follows what named files and logged nothing. Nobody who has no seat here has entries.
    pub fn follow_as<E: VerifierStep>(&mut self)
        requires same { E.after.history ≡ self.old.entries }
        requires longer { (more : List (List ℕ)) × (E.after.files ≡ self.old.files ++ more) }
        requires none { E.given ≡ [] }
        ensures kept { self.new ≡ journal E.after.history E.after.files self.old.handed }
        ensures outside { (number : ℕ) → IsOutside self.old.handed number
            → own_entries number self.old.entries ≡ [] }
    {
        follow::<E>(&self.ledger, &mut self.card);
    }

    /// Follows a seat's step, which logged entries of this seat alone, and gave it files that are
    /// among those named: the seat has then seen all of it, and what others did since it last
    /// looked.
    pub fn enter_as<E: VerifierStep>(&mut self, seat: &mut Seat<J>)
        requires grows { Grows self.old seat.old.seat E.after }
        requires named { AreFiles E.after.files E.given }
        requires legal { IsLegal J.start E.after.files E.after.history }
        ensures kept { self.new ≡ journal E.after.history E.after.files self.old.handed }
        ensures entered { Entered J.start E.given self.old.entries self.old.files E.after
            seat.old seat.new }
    {
        let card = take_off(&self.ledger, &mut seat.card);
        put_to(&self.ledger, &mut self.card, card);
        follow::<E>(&self.ledger, &mut self.card);
        seat.card = take_off(&self.ledger, &mut self.card);
    }
}
