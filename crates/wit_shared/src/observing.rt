//! What observers learn of a shared verifier.

ghost use Rattle.std.specs.Prelude.{◌≡◌, []};
ghost use mathlib.Core.List.{IsPrefix};
ghost use Rattle.wit_seats.specs.Seats.{Told};
ghost use Rattle.wit_shared.specs.Publishing.{adoptions, IsNamedIn};

use crate::shared::Shared;
use std::sync::{MutexGuard, Wait};
use wit_observers::{News, Observer};
use wit_seats::{Room, Seat};

impl<J: Room> Shared<J> {
    /// News of all orders that are adopted now, the listed ones too, for an observer to learn: at
    /// least those that the seat's own calls adopted. It takes no memory.
    pub fn news<R: Wait>(&self, rt: &R, seat: &mut Seat<J>) -> News<J>
        ensures told { Told J.start [] (λ before after. after ≡ before) seat.old seat.new }
        ensures all { result ≡ adoptions J.start seat.new.seen }
        ensures own { IsNamedIn seat.new.own result }
    {
        let mut desk = self.desk.lock(rt);
        let news = desk.news(seat);
        let _ = MutexGuard::unlock(desk);
        news
    }

    /// What an observer knows is how the list of adopted orders begins, oldest first: it is called
    /// for that clause.
    pub fn covers<R: Wait>(&self, rt: &R, seat: &mut Seat<J>, observer: &Observer<J>)
        ensures told { Told J.start [] (λ before after. after ≡ before) seat.old seat.new }
        ensures begins { IsPrefix observer.now (adoptions J.start seat.new.seen) }
    {
        let mut desk = self.desk.lock(rt);
        desk.covers(seat, observer);
        let _ = MutexGuard::unlock(desk);
    }
}
