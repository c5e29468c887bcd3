//! Who publishes adopted orders.

ghost use Rattle.std.specs.Prelude.{◌≡◌, ◌+◌, ◌<◌, ◌^◌, ◌++◌, ◌∷◌, true, [], length, drop, fold};
ghost use Rattle.std.specs.Prelude.{replicate, ◌*◌, IfOk, IfErr, IfSome, MatchResult};
ghost use mathlib.Core.List.{IsPrefix};
ghost use Rattle.left_right.specs.Sides.{view as told_at};
ghost use Rattle.wit_adoptions.specs.Naming.{IsOf, orders_on};
ghost use Rattle.wit_observers.specs.Numbers.{all_fit};
ghost use Rattle.wit_observers.specs.Shown.{shape_of, with_change, shown, IsExact, GoesOn};

use crate::cells::blank;
use crate::news::News;
use crate::rule::{Longer, Looks, Place, Showing, Twice};
use crate::store::{Change, Store};
use crate::tail::Tail;
use core::mem::replace_with;
use left_right::writer::Writer;
use std::alloc::{AllocError, Global};
use std::marker::Model;
use std::sync::Wait;
use wit_adoptions::{Front, ListKeeper, Naming, Page};
use wit_model::Adoption;

// What is shown while there are no orders.
fn first_store(alloc: Global, page: Page, size: u16) -> Result<Store, AllocError>
    ensures page { IfOk result (λ s. s.page ≡ page) }
    ensures tail { IfOk result (λ s. s.tail.orders ≡ []) }
    ensures size { IfOk result (λ s. s.size ≡ size) }
    ensures cells { IfOk result (λ s. s.cells.items ≡ replicate (size * size) 0) }
{
    let none = Vec::new(alloc);
    Ok(Store {
        page,
        tail: Tail::of(&none),
        size,
        cells: blank(alloc, size)?,
    })
}

// Shows what was added, which can't fail.
fn show<J: Naming, R: Wait>(rt: &R, writer: Showing<J>) -> Showing<J>
    requires { let now = shape_of writer.desk.shown.value in
        GoesOn J.list now (fold with_change now (drop writer.behind writer.log.items)) }
    ensures none { drop result.behind result.log.items ≡ [] }
    ensures shape { shape_of result.desk.shown.value
        ≡ fold with_change (shape_of writer.desk.shown.value)
        (drop writer.behind writer.log.items) }
    ensures view { told_at result.desk.place ≡ shown J.list (shape_of result.desk.shown.value) }
{
    let (writer, _shown) = writer.publish_as::<Looks<J>, R>(rt);
    writer
}

// Adds a change, and shows it. At `Err` there is no memory for it, and the same is shown.
fn show_change<J: Naming, R: Wait>(
    rt: &R,
    writer: &mut Showing<J>,
    change: Change,
) -> Result<(), AllocError>
    requires none { drop writer.old.behind writer.old.log.items ≡ [] }
    requires goes_on { let now = shape_of writer.old.desk.shown.value in
        GoesOn J.list now (with_change now change) }
    ensures none { drop writer.new.behind writer.new.log.items ≡ [] }
    ensures ok { let now = shape_of writer.new.desk.shown.value in
        IfOk result (λ _. (now ≡ with_change (shape_of writer.old.desk.shown.value) change)
        × (told_at writer.new.desk.place ≡ shown J.list now)) }
    ensures err { IfErr result (λ _.
        (shape_of writer.new.desk.shown.value ≡ shape_of writer.old.desk.shown.value)
        × (told_at writer.new.desk.place ≡ told_at writer.old.desk.place)) }
{
    if writer.append(change).is_err() {
        return Err(AllocError);
    }
    let _ = replace_with(writer, rt, |writer, rt| (show(rt, writer), ()));
    Ok(())
}

// What adds these orders to those of a list.
fn change<J: Naming>(keeper: &ListKeeper<J>, orders: Vec<Adoption>) -> Change
    requires room { length keeper.now + length orders.items < 2 ^ 32 }
    ensures orders { result.orders ≡ orders }
    ensures before { result.before ≡ length keeper.now }
    ensures page { IsOf J.list result.page }
    ensures all { orders_on J.list result.page ≡ keeper.now }
{
    Change {
        page: keeper.front().page(),
        before: keeper.len() as u32,
        orders,
    }
}

// A place to look from that is told all that was shown, where one is free.
fn free_place<J: Naming>(writer: &mut Showing<J>) -> Option<Place<J>>
    ensures shown { writer.new.desk.shown ≡ writer.old.desk.shown }
    ensures pending { drop writer.new.behind writer.new.log.items
        ≡ drop writer.old.behind writer.old.log.items }
    ensures kept { told_at writer.new.desk.place ≡ told_at writer.old.desk.place }
    ensures told { IfSome result (λ p. told_at p.place ≡ told_at writer.old.desk.place) }
{
    let mut place = writer.factory().reader().ok()?;
    place.learn::<Longer>(writer.tell::<Twice>());
    Some(place)
}

/// Publishes the orders that are adopted, for observers to look at without waiting: it shows one of
/// two copies of a square of cells, a number for each two types, while it changes the other. It
/// can't be let go of, but ends by `end`. Contracts see it as the orders that it has published,
/// oldest first, and the number of types.
pub struct Publisher<J: Naming> {
    alloc: Global,
    keeper: ListKeeper<J>,
    writer: Showing<J>,
}

impl<J: Naming> Model for Publisher<J> {
    ghost use Rattle.std.specs.Prelude.{◌≡◌, [], drop};
    ghost use Rattle.left_right.specs.Sides.{view as told_at};
    ghost use Rattle.wit_observers.specs.Shown.{Published, shape_of, shown, IsExact};

    ghost Value = { Published };

    ghost view = { λ p. record { orders = p.keeper; size = p.writer.desk.shown.value.size } };

    ghost invariant = { λ p. (drop p.writer.behind p.writer.log.items ≡ [])
        × IsExact J.list (shape_of p.writer.desk.shown.value)
        × (shown J.list (shape_of p.writer.desk.shown.value) ≡ p.keeper)
        × (told_at p.writer.desk.place ≡ p.keeper) };
}

impl<J: Naming> Publisher<J> {
    /// A publisher with no orders yet, for orders between this many types, which may be 1,023, with
    /// places for this many observers and news on their way. A copy has 4 bytes for each two
    /// types: for 1,023 types it takes 4 MB, and both take 8.
    ///
    /// # Errors
    /// Want of memory alone.
    pub fn new<R: Wait>(
        rt: &R,
        alloc: Global,
        keeper: ListKeeper<J>,
        size: u16,
        readers: usize,
    ) -> Result<Publisher<J>, AllocError>
        requires none { keeper ≡ [] }
        requires readers { (0 < readers) × (readers < 2 ^ 32) }
        ensures { IfOk result (λ p. p ≡ record { orders = []; size = size }) }
    {
        let mut publisher = Publisher::blank(alloc, keeper, size, readers)?;
        // It stays in the log of changes until the next one. So there is room for two from then on,
        // as many as a publish makes: none is refused its second one.
        match publisher.publish(rt, &[]) {
            Ok(()) => Ok(publisher),
            Err(refused) => {
                publisher.end(rt);
                Err(refused)
            }
        }
    }

    // One that has shown nothing.
    fn blank(
        alloc: Global,
        keeper: ListKeeper<J>,
        size: u16,
        readers: usize,
    ) -> Result<Publisher<J>, AllocError>
        requires none { keeper ≡ [] }
        requires readers { (0 < readers) × (readers < 2 ^ 32) }
        ensures { IfOk result (λ p. p ≡ record { orders = []; size = size }) }
    {
        let page = keeper.front().page();
        let first = first_store(alloc, page.again(), size)?;
        let second = first_store(alloc, page, size)?;
        Ok(Publisher {
            alloc,
            keeper,
            writer: Writer::new(alloc, first, second, readers)?,
        })
    }

    /// Publishes adopted orders, none, one or several, which observers then see all at once. The
    /// growth of memory is asked for before anything changes. It waits for observers that still
    /// look at the copy that it changes.
    ///
    /// # Errors
    /// Want of memory alone; then nothing has changed.
    pub fn publish<R: Wait>(&mut self, rt: &R, orders: &[Adoption]) -> Result<(), AllocError>
        requires room { length self.old.orders + length orders.now < 2 ^ 32 }
        requires fit { all_fit self.old.size orders.now ≡ true }
        ensures size { self.new.size ≡ self.old.size }
        ensures orders { MatchResult result (λ _. self.new.orders ≡ self.old.orders ++ orders.now)
            (λ _. self.new.orders ≡ self.old.orders) }
    {
        let more = change(&self.keeper, Vec::from_slice(self.alloc, orders)?);
        show_change(rt, &mut self.writer, more)?;
        self.keeper.add(orders);
        // With the page renewed, who hasn't heard of these orders sees them too.
        let fresh = change(&self.keeper, Vec::new(self.alloc));
        let _ = show_change(rt, &mut self.writer, fresh);
        Ok(())
    }

    /// News of all that was published, with a place to look from where one is free. It changes
    /// nothing.
    pub fn news(&mut self) -> News<J>
        ensures given { result ≡ self.new.orders }
        ensures kept { self.new ≡ self.old }
    {
        let place = free_place(&mut self.writer);
        News {
            front: self.keeper.front(),
            place,
        }
    }

    /// What an observer of this publisher knows is how the published orders begin: it is called for
    /// that clause, and changes nothing.
    pub fn covers(&mut self, front: &Front<J>)
        ensures kept { self.new ≡ self.old }
        ensures begins { IsPrefix front.now self.new.orders }
    {
        self.keeper.covers(front);
    }

    /// Ends it: who looks after that sees nothing. It waits for observers that still look.
    pub fn end<R: Wait>(self, rt: &R) {
        let Publisher {
            alloc: _,
            keeper: _keeper,
            writer,
        } = self;
        let _last = writer.take(rt);
    }
}
