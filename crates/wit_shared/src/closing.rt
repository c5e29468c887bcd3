//! A shared verifier comes back once all its seats are given back.

ghost use Rattle.std.specs.Prelude.{◌≡◌, ◌≤◌, IfOk, IfErr, MatchOption};
ghost use Rattle.wit_seats.specs.Rule.{journal};
ghost use Rattle.wit_shared.specs.Closing.{has_seat, HasSeatsTo, IsMissing, IsLeft, AreLeft};
ghost use Rattle.wit_shared.specs.Closing.{IsClosed};

use crate::desk::Desk;
use crate::following::{follow, look};
use crate::shared::Shared;
use std::marker::Model;
use std::sync::Wait;
use wit_core::Verifier;
use wit_model::SeatNo;
use wit_seats::{LogKeeper, Room, Seat, abandon_all};

/// A shared verifier that wasn't closed, with the seats that were given back, all as they were.
/// Clauses see the seats, how many were handed out, and the least number of one that is missing. It
/// can't be let go of: `into_parts` gives back what was to be closed, and `abandon` drops it.
pub struct Unclosed<J: Room> {
    desk: Desk<J>,
    seats: Vec<Seat<J>>,
    missing: SeatNo,
}

impl<J: Room> Model for Unclosed<J> {
    ghost use Rattle.wit_shared.specs.Closing.{Lacking};

    ghost Value = { Lacking };

    ghost view = { λ u. record {
      seats = u.seats.items;
      handed = u.desk.handed;
      missing = u.missing.0;
    } };
}

impl<J: Room> Unclosed<J> {
    /// The least number of a seat that was handed out and isn't among those given back.
    pub fn missing(&self) -> SeatNo
        ensures { result.0 ≡ self.now.missing }
    {
        self.missing
    }

    /// The shared verifier and the seats, to go on with.
    pub fn into_parts(self) -> (Shared<J>, Vec<Seat<J>>)
        ensures { result.1.items ≡ self.seats }
    {
        let Unclosed {
            desk,
            seats,
            missing: _,
        } = self;
        (Shared::of(desk), seats)
    }

    /// Drops the verifier and the seats. Observers see nothing from then on.
    pub fn abandon<R: Wait>(self, rt: &R) {
        let Unclosed {
            desk,
            seats,
            missing: _,
        } = self;
        abandon_all(seats);
        desk.abandon(rt);
    }
}

impl<J: Room> Shared<J> {
    /// Gives the verifier back for all its seats. For each of them the log has just the entries of
    /// its list, and began with what it has seen, and its files stand; nobody else has entries; the
    /// verifier began as it did when it was shared.
    ///
    /// Observers see nothing from then on. It may wait for one that looks.
    ///
    /// # Errors
    /// Where a seat that was handed out isn't there; the shared verifier and the seats come back.
    pub fn close<R: Wait>(self, rt: &R, seats: Vec<Seat<J>>) -> Result<Verifier, Unclosed<J>>
        ensures ok { IfOk result (λ v. IsClosed J.start v seats.items) }
        ensures err { IfErr result (λ u. (u.seats ≡ seats.items) × (u.missing ≤ u.handed)
            × IsMissing u.missing seats.items) }
    {
        self.into_desk().close(rt, seats)
    }

    /// Drops the verifier. Observers see nothing from then on. It may wait for one that looks.
    pub fn abandon<R: Wait>(self, rt: &R) {
        self.into_desk().abandon(rt);
    }
}

impl<J: Room> Desk<J> {
    /// Gives the verifier back where all seats that were handed out are there.
    ///
    /// # Errors
    /// Where one is missing.
    pub fn close<R: Wait>(self, rt: &R, seats: Vec<Seat<J>>) -> Result<Verifier, Unclosed<J>>
        ensures same { IfOk result (λ v. v ≡ self.story) }
        ensures all { IfOk result (λ v. HasSeatsTo self.handed seats.items) }
        ensures ok { IfOk result (λ v. IsClosed J.start v seats.items) }
        ensures handed { IfErr result (λ u. u.handed ≡ self.handed) }
        ensures err { IfErr result (λ u. (u.seats ≡ seats.items) × (u.missing ≤ u.handed)
            × IsMissing u.missing seats.items) }
    {
        match missing_of(&seats, self.handed) {
            Some(missing) => Err(Unclosed {
                desk: self,
                seats,
                missing,
            }),
            None => Ok(self.settle(rt, seats)),
        }
    }

    // Ends the publisher, and gives the verifier back.
    fn settle<R: Wait>(self, rt: &R, seats: Vec<Seat<J>>) -> Verifier
        requires { HasSeatsTo self.handed seats.items }
        ensures same { result ≡ self.story }
        ensures closed { IsClosed J.start result seats.items }
    {
        let (verifier, mut keeper, publisher) = self.into_parts();
        publisher.end(rt);
        settle_all(&mut keeper, &verifier, seats);
        look(&mut keeper, &verifier);
        verifier
    }
}

// The least number up to this one of a seat that isn't among these.
fn missing_of<J: Room>(seats: &[Seat<J>], handed: u16) -> Option<SeatNo>
    ensures { MatchOption result (HasSeatsTo handed seats.now) (λ n. (n.0 ≤ handed)
        × IsMissing n.0 seats.now) }
{
    for number in 1..=handed {
        if !has_seat(seats, SeatNo(number)) {
            return Some(SeatNo(number));
        }
    }
    None
}

fn has_seat<J: Room>(seats: &[Seat<J>], number: SeatNo) -> bool
    ensures { result ≡ has_seat number.0 seats.now }
{
    seats.iter().any(|seat| seat.number() == number)
}

// Settles each seat.
fn settle_all<J: Room>(keeper: &mut LogKeeper<J>, verifier: &Verifier, mut seats: Vec<Seat<J>>)
    requires start { verifier.now.start ≡ J.start }
    requires same { keeper.old ≡ journal verifier.now.history verifier.now.files keeper.old.handed }
    ensures kept { keeper.new ≡ keeper.old }
    ensures left { AreLeft verifier.now seats.items }
{
    while let Some(seat) = seats.pop() {
        settle(keeper, verifier, seat);
    }
    seats.destroy_empty();
}

// A seat sees what became of the log, and is spent.
fn settle<J: Room>(keeper: &mut LogKeeper<J>, verifier: &Verifier, mut seat: Seat<J>)
    requires start { verifier.now.start ≡ J.start }
    requires same { keeper.old ≡ journal verifier.now.history verifier.now.files keeper.old.handed }
    ensures kept { keeper.new ≡ keeper.old }
    ensures left { IsLeft verifier.now seat }
{
    follow(keeper, verifier, &mut seat);
    seat.abandon();
}
