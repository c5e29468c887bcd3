//! A beginning of a list.

ghost use Rattle.std.specs.Prelude.{◌≡◌, length};
ghost use Rattle.wit_adoptions.specs.Fronts.{Compares};
ghost use Rattle.wit_adoptions.specs.Naming.{IsOf, orders_on};

use crate::law::Law;
use crate::link::ListLink;
use crate::naming::Naming;
use crate::page::Page;
use logbook::Seen;
use std::cmp::Ordering;
use std::marker::{Model, PhantomData};

/// A beginning of the list of adopted orders, oldest first, as contracts see it. It stays one
/// however long the list gets. What runs is a count: no call takes memory.
#[derive(Drop)]
pub struct Front<J: Naming> {
    pub(crate) count: u64,
    pub(crate) seen: Seen<ListLink, u64, Law>,
    of: PhantomData<J>,
}

impl<J: Naming> Model for Front<J> {
    ghost use Rattle.std.specs.Prelude.{List};
    ghost use Rattle.wit_model.specs.declared.calls.Adoption.{Adoption};
    ghost use Rattle.wit_adoptions.specs.Naming.{IsOf, orders_on, sheet};

    ghost Value = { List Adoption };

    ghost view = { λ f. orders_on J.list (sheet f.seen.book f.seen.log f.count) };

    ghost invariant = { λ f. IsOf J.list (sheet f.seen.book f.seen.log f.count) };
}

impl<J: Naming> Front<J> {
    /// A page of this list, under its name.
    pub fn of(page: Page) -> Front<J>
        requires { IsOf J.list page }
        ensures { result ≡ orders_on J.list page }
    {
        let Page { count, seen } = page;
        Front {
            count,
            seen,
            of: PhantomData,
        }
    }

    /// Its orders as a page, whose type names no list.
    pub fn page(&self) -> Page
        ensures of { IsOf J.list result }
        ensures same { orders_on J.list result ≡ self.now }
    {
        Page {
            count: self.count,
            seen: self.seen.again(),
        }
    }

    /// How many orders it has.
    pub fn len(&self) -> u64
        ensures { result ≡ length self.now }
    {
        self.count
    }

    /// A copy.
    pub fn again(&self) -> Front<J>
        ensures { result ≡ self.now }
    {
        Front {
            count: self.count,
            seen: self.seen.again(),
            of: PhantomData,
        }
    }

    /// Whether this front is shorter than the other, is the same, or is longer. The longer one
    /// begins with the shorter one.
    pub fn compare(&self, other: &Front<J>) -> Ordering
        ensures { Compares self.now other.now result }
    {
        let mut both = self.seen.again();
        both.learn(&other.seen);
        Ord::cmp(&self.count, &other.count)
    }
}
