//! Who adds to a list.

ghost use Rattle.std.specs.Prelude.{◌≡◌, ◌+◌, ◌<◌, ◌^◌, ◌++◌, [], length};
ghost use mathlib.Core.List.{IsPrefix};
ghost use Rattle.wit_adoptions.specs.Keeping.{IsUnused, head_of};

use crate::front::Front;
use crate::law::{Adding, Covering, Ending, Growth, Law, Nothing};
use crate::link::ListLink;
use crate::naming::Naming;
use crate::page::Page;
use logbook::{Offer, Pen, Seen, Start, Word};
use std::marker::{Model, PhantomData};
use wit_model::Adoption;

// What the word holds at which steps are taken, before and after each. So each `compare_exchange`
// here is a ghost step: it changes nothing that runs, and what proofs know of the book goes on.
const STILL: u64 = 0;

// A pen for an end that is new in the book.
fn new_end(head: &Word<ListLink, u64, Law>, seen: &Seen<ListLink, u64, Law>) -> Pen
    requires { head.now ≡ head_of seen.now.book }
    ensures { IsUnused seen.now.book result }
{
    let mut now = seen.again();
    let mut offer: Offer<ListLink, u64, Law, Nothing> = now.plain::<Nothing, (), Covering>(&());
    let mut pen = now.no_pen();
    let _ = head.compare_exchange::<Ending, Nothing>(STILL, STILL, &mut now, &mut offer, &mut pen);
    let _word: Word<ListLink, u64, Law> = Word::tracked(STILL, &mut pen);
    pen
}

/// A new list, as yet with no name. Contracts see it as the name that it is to have.
#[derive(Drop)]
pub struct OpenedList {
    head: Word<ListLink, u64, Law>,
    seen: Seen<ListLink, u64, Law>,
    pen: Pen,
}

impl Model for OpenedList {
    ghost use Rattle.wit_adoptions.specs.Keeping.{IsNewListKeeper};
    ghost use Rattle.wit_adoptions.specs.Naming.{Name, name};

    ghost Value = { Name };

    ghost view = { λ o. name o.seen.book o.pen.nib.key };

    ghost invariant = { λ o. IsNewListKeeper o.head o.seen.book o.seen.log o.pen };
}

impl OpenedList {
    /// A list with no orders. It takes no memory.
    pub fn new() -> OpenedList {
        let (seen, mut first, _second) = Seen::open(Start::alone(), STILL, STILL);
        let head = Word::tracked(STILL, &mut first);
        let pen = new_end(&head, &seen);
        OpenedList { head, seen, pen }
    }

    /// The list's adder, under the name that the list is to have.
    pub fn named<J: Naming>(self) -> ListKeeper<J>
        requires { self ≡ J.list }
        ensures { result ≡ [] }
    {
        let OpenedList { head, seen, pen } = self;
        ListKeeper {
            count: 0,
            head,
            seen,
            pen,
            of: PhantomData,
        }
    }
}

/// The one adder of a list of adopted orders. Contracts see it as the whole list, oldest order
/// first. No call copies it, and none takes memory.
#[derive(Drop)]
pub struct ListKeeper<J: Naming> {
    count: u64,
    head: Word<ListLink, u64, Law>,
    seen: Seen<ListLink, u64, Law>,
    // The list's end.
    pen: Pen,
    of: PhantomData<J>,
}

impl<J: Naming> Model for ListKeeper<J> {
    ghost use Rattle.std.specs.Prelude.{List};
    ghost use Rattle.wit_model.specs.declared.calls.Adoption.{Adoption};
    ghost use Rattle.wit_adoptions.specs.Keeping.{IsKeeping};
    ghost use Rattle.wit_adoptions.specs.Naming.{orders_on, sheet};

    ghost Value = { List Adoption };

    ghost view = { λ k. orders_on J.list (sheet k.seen.book k.seen.log k.count) };

    ghost invariant = { λ k. IsKeeping J.list k.head (sheet k.seen.book k.seen.log k.count) k.pen };
}

impl<J: Naming> ListKeeper<J> {
    /// How many orders the list has.
    pub fn len(&self) -> u64
        ensures { result ≡ length self.now }
    {
        self.count
    }

    /// The whole list as it is now.
    pub fn front(&self) -> Front<J>
        ensures { result ≡ self.now }
    {
        Front::of(Page {
            count: self.count,
            seen: self.seen.again(),
        })
    }

    /// Adds these orders in this order, none, one or more. It can't fail.
    pub fn add(&mut self, orders: &[Adoption])
        requires room { length self.old + length orders.now < 2 ^ 64 }
        ensures { self.new ≡ self.old ++ orders.now }
    {
        let next = new_end(&self.head, &self.seen);
        let mut offer: Offer<ListLink, u64, Law, Nothing> = self
            .seen
            .plain::<Nothing, Growth<'_>, Adding>(&Growth {
                end: &self.pen,
                next: &next,
                orders,
            });
        let _ = self
            .head
            .compare_exchange::<Adding, Nothing>(
                STILL,
                STILL,
                &mut self.seen,
                &mut offer,
                &mut self.pen,
            );
        self.pen = next;
        self.count += orders.len() as u64;
    }

    /// Shows that a front is a beginning of the list as it is now.
    pub fn covers(&mut self, front: &Front<J>)
        ensures same { self.new ≡ self.old }
        ensures begins { IsPrefix front.now self.new }
    {
        let mut both = self.seen.again();
        both.learn(&front.seen);
        let mut offer: Offer<ListLink, u64, Law, Nothing> = both.plain::<Nothing, (), Covering>(
            &(),
        );
        let _ = self
            .head
            .compare_exchange::<Covering, Nothing>(
                STILL,
                STILL,
                &mut both,
                &mut offer,
                &mut self.pen,
            );
    }
}
