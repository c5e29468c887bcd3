//! Who looks at what is published.

ghost use Rattle.std.specs.Prelude.{◌≡◌, ◌<◌, ◌^◌, true, List, length, IfOk, IfSome, MatchOption};
ghost use Rattle.wit_model.specs.declared.calls.Adoption.{Adoption};
ghost use mathlib.Core.List.{IsPrefix};
ghost use Rattle.left_right.specs.Sides.{view as told_at};
ghost use Rattle.wit_model.specs.Rules.Numbers.{is_number};
ghost use Rattle.wit_model.specs.Rules.Orders.{is_direct};
ghost use Rattle.wit_observers.specs.Shown.{Tells};

use crate::news::News;
use crate::rule::{Looks, Place};
use std::alloc::AllocError;
use std::cmp::Ordering;
use std::marker::Model;
use wit_adoptions::{Front, Naming};
use wit_model::TypeNo;

/// Who looks at adopted orders without waiting for anybody. Contracts see it as a list: how the
/// list of adopted orders begins, as far as it has learnt or seen. That never gets shorter.
#[derive(Drop)]
pub struct Observer<J: Naming> {
    front: Front<J>,
    place: Option<Place<J>>,
    /// Whether its place was told all of its list. A look from there tells the place, since a
    /// publisher renews the page before it gives news: it can't be that less is shown than was learnt.
    told: bool,
}

impl<J: Naming> Model for Observer<J> {
    ghost use Rattle.std.specs.Prelude.{ℕ, ◌≡◌, ◌<◌, ◌^◌, true, List, length, IfSome};
    ghost use mathlib.Core.List.{IsPrefix};
    ghost use Rattle.wit_model.specs.declared.calls.Adoption.{Adoption};
    ghost use Rattle.left_right.specs.Sides.{view as told_at};

    ghost Value = { List Adoption };

    ghost view = { λ o. o.front };

    ghost invariant = { λ o. (length o.front < 2 ^ 32)
        × (o.told ≡ true → IfSome o.place (λ p. IsPrefix o.front (told_at p.place))) };
}

// Looks from a place: the orders on the page that is shown, and the number of one order.
fn look<J: Naming>(
    place: Place<J>,
    parent: TypeNo,
    child: TypeNo,
) -> (Place<J>, Option<(Front<J>, u32)>)
    ensures { let told = told_at place.place in
        let all = told_at result.0.place in
        MatchOption result.1 (all ≡ told) (λ seen. Tells told seen.0 seen.1 parent.0 child.0 all) }
{
    match place.enter_as::<Looks<J>>() {
        Err(place) => (place, None),
        Ok(reading) => {
            let store = reading.get();
            let number = store.number(parent, child);
            let seen = Front::of(store.page.again());
            (reading.leave(), Some((seen, number)))
        }
    }
}

// Takes in what was seen, unless more was known. Where the place was told all that was known, as
// `told` says, and all that was seen, the result says whether it was told all that is known now.
fn rise<J: Naming>(front: &mut Front<J>, seen: Front<J>, told: bool) -> bool
    requires few { (length front.old < 2 ^ 32) × (length seen < 2 ^ 32) }
    ensures few { length front.new < 2 ^ 32 }
    ensures kept { IsPrefix front.old front.new }
    ensures told { (all : List Adoption) → IsPrefix seen all
        → (told ≡ true → IsPrefix front.old all)
        → result ≡ true → IsPrefix front.new all }
{
    match front.compare(&seen) {
        Ordering::Greater => told,
        _ => {
            *front = seen;
            true
        }
    }
}

impl<J: Naming> Observer<J> {
    /// An observer that knows these news.
    ///
    /// # Errors
    /// Where the news has no place to look from.
    pub fn new(news: News<J>) -> Result<Observer<J>, AllocError>
        ensures { IfOk result (λ o. o ≡ news) }
    {
        let News { front, place } = news;
        match place {
            Some(place) => Ok(Observer {
                front,
                place: Some(place),
                told: true,
            }),
            None => Err(AllocError),
        }
    }

    /// Takes in news: all of it is known then, and what was known stays known. It waits for nobody.
    pub fn learn(&mut self, news: News<J>)
        ensures kept { IsPrefix self.old self.new }
        ensures told { IsPrefix news self.new }
    {
        let News { front, place } = news;
        match (self.front.compare(&front), place) {
            (Ordering::Greater, _) => {}
            (_, Some(place)) => {
                self.front = front;
                self.place = Some(place);
                self.told = true;
            }
            (Ordering::Equal, None) => {}
            (Ordering::Less, None) => {
                self.front = front;
                self.told = false;
            }
        }
    }

    // Looks, and gives the number of an order among those that are shown.
    fn number(&mut self, parent: TypeNo, child: TypeNo) -> Option<u32>
        ensures kept { IsPrefix self.old self.new }
        ensures number { IfSome result (λ n.
            is_number (length self.new) n ≡ is_direct self.new parent.0 child.0) }
    {
        let place = self.place.take()?;
        let (place, seen) = look(place, parent, child);
        self.place = Some(place);
        let (seen, number) = seen?;
        self.told = rise(&mut self.front, seen, self.told);
        if self.told { Some(number) } else { None }
    }

    /// Whether the order from one type to another is among the adopted orders that it has learnt or
    /// sees now: the direct ones, as `isitmychild` of `subr_witness.c` tells. It waits for nobody.
    /// `None` stands only for a publisher that has ended, or for a look that is refused.
    pub fn known(&mut self, parent: TypeNo, child: TypeNo) -> Option<bool>
        ensures kept { IsPrefix self.old self.new }
        ensures known { IfSome result (λ r. r ≡ is_direct self.new parent.0 child.0) }
    {
        let number = self.number(parent, child)?;
        Some(1 <= number && number as u64 <= self.front.len())
    }

    /// How many adopted orders it has learnt or sees now. It waits for nobody. `None` stands for
    /// what it stands for in `known`.
    pub fn orders_seen(&mut self) -> Option<u32>
        ensures kept { IsPrefix self.old self.new }
        ensures seen { IfSome result (λ n. n ≡ length self.new) }
    {
        // Any two types will do: it is the look that counts.
        self.number(TypeNo(0), TypeNo(0))?;
        Some(self.front.len() as u32)
    }

    /// What it knows, for `Publisher::covers`.
    pub fn front(&self) -> &Front<J>
        ensures { result.now ≡ self.now }
    {
        &self.front
    }
}
