//! A gate's word, and the tickets that are out of it.

ghost use Rattle.atomic_table.specs.Seated.{TableId};
ghost use Rattle.wit_gates.specs.Tickets.{HasOneWord};

use crate::claim::Claim;
use crate::left::Left;
use crate::met::{EXCLUSIVE, MOST_SHARES, Met};
use crate::rule::{
    Counts, Joined, LeavesHold, LeavesShare, Looks, Meets, Parted, Shares, Told, TriesExclusive,
    TriesShare, TriesUpgrade,
};
use crate::ticket::Ticket;
use atomic_table::Table;
use std::alloc::{AllocError, Global};
use std::marker::Model;
use std::sync::{MutexGuard, Wait};
use wit_model::Mode;

/// A number that says how many have a gate: 4,294,967,295 where one has it alone, else how many
/// share it, which is up to 4,294,967,294.
///
/// The tickets that are out add up to it at every moment. It is changed through a `&`, by single
/// steps. Each is taken in a turn ([`InTurn`]). Contracts see which word it is.
#[derive(Drop)]
pub struct Word {
    table: Table<(), Claim, (), Counts, Global>,
}

/// The turn to take steps on a word. With each word one is made, and there are no others.
#[derive(Drop)]
pub struct Turn(());

/// That its holder may take a step on a word now. Who keeps the turn under a mutex has it `Locked`
/// alone: then no step comes between what a waiter looks at and its sleep. Whose waiters don't sleep
/// may keep it `Open`: each step is atomic by itself.
#[derive(Drop)]
pub enum InTurn<'a> {
    /// The turn lies under a mutex, which is held.
    Locked(MutexGuard<'a, Turn>),
    /// The turn lies under none.
    Open(&'a Turn),
}

impl Model for Word {
    ghost Value = { TableId };

    ghost view = { λ w. w.table.shared.table_id };

    ghost invariant = { λ w. HasOneWord w.table.shared.table_id };
}

impl Word {
    ghost use Rattle.std.specs.Prelude.{◌≡◌, ◌≤◌, MatchResult};
    ghost use Rattle.wit_model.specs.declared.locks.Mode.TheVariants.{Shared, Exclusive};
    ghost use Rattle.wit_model.specs.Gates.{exclusive_word, most_shares};
    ghost use Rattle.wit_gates.specs.Tickets.{IsBarred, IsCrowded, pass};

    /// The word of a gate that nobody has, and its turn.
    ///
    /// # Errors
    /// Want of memory alone.
    pub fn new(alloc: Global) -> Result<(Word, Turn), AllocError> {
        let (table, _seat) = Table::of_words(alloc, &[0], &())?;
        Ok((Word { table }, Turn(())))
    }

    /// The word as it is met just now.
    pub fn look(&self) -> Met
        ensures { result.word ≡ self.now }
    {
        let (found, seat) = self.table.shared.load_new_seat::<Meets>(0);
        Met::of(seat, found)
    }

    /// A share, where nobody has the gate alone and one more can share it. Else the word as it was
    /// met, which lets nobody in so.
    pub fn try_share<R: Wait>(&self, rt: &R, _turn: &InTurn<'_>) -> Result<Ticket, Met>
        ensures { MatchResult result (λ t. t ≡ pass self.now Shared) (IsBarred self.now Shared) }
    {
        let shared = &self.table.shared;
        let (mut found, mut seat) = shared.load_new_seat::<Meets>(0);
        for _ in rt.forever() {
            if found >= MOST_SHARES {
                return Err(Met::of(seat, found));
            }
            let now = shared.compare_exchange::<TriesShare>(&mut seat, 0, found, found + 1);
            if now == found {
                return Ok(Ticket { seat });
            }
            found = now;
        }
        unreachable!()
    }

    /// The exclusive hold, where nobody has the gate. Else the word as it was met.
    pub fn try_exclusive(&self, _turn: &InTurn<'_>) -> Result<Ticket, Met>
        ensures { MatchResult result (λ t. t ≡ pass self.now Exclusive)
            (IsBarred self.now Exclusive) }
    {
        let shared = &self.table.shared;
        let (_, mut seat) = shared.load_new_seat::<Meets>(0);
        let found = shared.compare_exchange::<TriesExclusive>(&mut seat, 0, 0, EXCLUSIVE);
        if found != 0 {
            return Err(Met::of(seat, found));
        }
        Ok(Ticket { seat })
    }

    /// Takes a ticket back. It never fails.
    pub fn free(&self, _turn: &InTurn<'_>, mode: Mode, ticket: Ticket) -> Left
        requires { ticket ≡ pass self.now mode }
        ensures { result ≡ pass self.now mode }
    {
        let Ticket { mut seat } = ticket;
        match mode {
            Mode::Shared => {
                self.table.shared.fetch_sub::<LeavesShare>(&mut seat, 0, 1);
                Left { seat }
            }
            Mode::Exclusive => {
                self.table.shared.store::<LeavesHold>(&mut seat, 0, 0);
                Left { seat }
            }
        }
    }

    /// The exclusive hold for a share, where that is the only one. Else the share comes back, with
    /// the word as it was met.
    pub fn try_upgrade(&self, _turn: &InTurn<'_>, ticket: Ticket) -> Result<Ticket, (Ticket, Met)>
        requires { ticket ≡ pass self.now Shared }
        ensures { MatchResult result (λ t. t ≡ pass self.now Exclusive)
            (λ e. (e.0 ≡ ticket) × IsCrowded self.now e.1) }
    {
        let Ticket { mut seat } = ticket;
        let shared = &self.table.shared;
        let found = shared.compare_exchange::<TriesUpgrade>(&mut seat, 0, 1, EXCLUSIVE);
        if found != 1 {
            let met = shared.split_seat::<Told>(&mut seat);
            return Err((Ticket { seat }, Met::of(met, found)));
        }
        Ok(Ticket { seat })
    }

    /// A share for the exclusive hold. It never fails.
    pub fn downgrade(&self, _turn: &InTurn<'_>, ticket: Ticket) -> Ticket
        requires { ticket ≡ pass self.now Exclusive }
        ensures { result ≡ pass self.now Shared }
    {
        let Ticket { mut seat } = ticket;
        self.table.shared.store::<Shares>(&mut seat, 0, 1);
        Ticket { seat }
    }

    /// Of two tickets that are out together neither is exclusive: who has a gate alone is alone.
    /// Both come back.
    pub fn pair(&self, one: Ticket, other: Ticket) -> (Ticket, Ticket)
        requires { (one.word ≡ self.now) × (other.word ≡ self.now) }
        ensures shares { (one.mode ≡ Shared) × (other.mode ≡ Shared) }
        ensures same { result ≡ (one, other) }
    {
        let Ticket { mut seat } = one;
        let Ticket { seat: second } = other;
        let shared = &self.table.shared;
        shared.join_seat::<Joined>(&mut seat, second);
        shared.load::<Looks>(&mut seat, 0);
        let second = shared.split_seat::<Parted>(&mut seat);
        (Ticket { seat }, Ticket { seat: second })
    }

    /// The word at the end. Tickets that never came back, as those that were abandoned, still count.
    pub fn into_word(self) -> u64
        ensures { result ≤ exclusive_word }
    {
        let Word { table } = self;
        let closed = table.close();
        let word = closed.word(0);
        closed.free();
        word
    }

    /// The word at the end, with one of its tickets still in hand.
    pub fn into_word_with(self, ticket: Ticket) -> u64
        requires { ticket.word ≡ self }
        ensures alone { ticket.mode ≡ Exclusive → result ≡ exclusive_word }
        ensures shared { ticket.mode ≡ Shared → (1 ≤ result) × (result ≤ most_shares) }
    {
        let Word { table } = self;
        let Ticket { seat } = ticket;
        let closed = table.close_with(seat);
        let last = closed.word(0);
        closed.free();
        last
    }
}
