//! The adopted orders, which types are before one another, and which were found in violation.

ghost use Rattle.std.specs.Prelude.{◌≡◌, ◌<◌, ◌≤◌, ◌+◌, ◌&&◌, ◌∷◌, ◌++◌, ℕ, true, [], IfSome, OnOk};
ghost use Rattle.std.specs.Prelude.{IfOk, IfErr, length, map, reverse};
ghost use Rattle.wit_model.specs.declared.faults.Fault.TheVariants.{OutOfMemory};
ghost use Rattle.wit_model.specs.declared.sizes.TheConstants.Limits.{MOST_TYPES};
ghost use Rattle.wit_model.specs.Rules.Orders.{is_direct, is_before, found_once};
ghost use Rattle.wit_model.specs.Rules.Orders.{origin_of, cell, taught_at};
ghost use Rattle.wit_model.specs.Rules.Numbers.{IsNumber, is_number};
ghost use Rattle.wit_model.specs.Trace.Paths.{path, path_numbers};
ghost use Rattle.wit_matrix.specs.Relation.{HasSameOrders, HasSameFound, OrdersAmong, LeadsBy};
ghost use Rattle.wit_known.specs.Following.{CanFollow, CanAllFollow};

use indexmap::IndexMap;
use std::alloc::{AllocError, Global};
use std::marker::Model;
use wit_matrix::Matrix;
use wit_model::{Adoption, Fault, Origin, Site, TypeNo};

/// The orders that were adopted, and the pairs of types that were found in violation, for up to a
/// number of types. A type beyond that number is before none, and none before it.
#[derive(Drop)]
pub struct Orders {
    adopted: Vec<Adoption>,
    /// The adopted orders as a relation of each type to each, and the pairs: it answers every
    /// question but one.
    matrix: Matrix,
    /// The place of each pair's order among them.
    places: IndexMap<(TypeNo, TypeNo), usize>,
}

impl Model for Orders {
    ghost use Rattle.wit_known.specs.Ordering.{Ordering};

    ghost Value = { Ordering };

    ghost use Rattle.wit_known.specs.Related.{ordering_in, IsRelated};

    ghost view = { ordering_in };

    ghost invariant = { IsRelated };
}

impl Orders {
    /// No orders, for up to this many types (1 to 1,023).
    ///
    /// # Errors
    /// `OutOfMemory` alone.
    pub fn new(alloc: Global, types: u32) -> Result<Orders, Fault>
        requires positive { 0 < types }
        requires within { types ≤ MOST_TYPES }
        ensures ok { IfOk result (λ o. o
            ≡ record { size = types; orders = []; found = []; spare = o.spare }) }
        ensures err { IfErr result (λ e. e ≡ OutOfMemory) }
    {
        Ok(Orders {
            adopted: Vec::new(alloc),
            matrix: Matrix::new(alloc, types as u16)?,
            places: IndexMap::new(alloc),
        })
    }

    /// The matrix: it has these pairs, and these orders, though maybe in another sequence.
    pub fn matrix(&self) -> &Matrix
        ensures orders { HasSameOrders result.now.orders self.now.orders }
        ensures found { result.now.found ≡ self.now.found }
        ensures size { result.now.size ≡ self.now.size }
    {
        &self.matrix
    }

    // Whether there may be types with these numbers.
    fn covers(&self, a: TypeNo, b: TypeNo) -> bool
        ensures { result ≡ is_number self.now.size a.0 && is_number self.now.size b.0 }
    {
        let size = self.matrix.size();
        1 <= a.0 && a.0 <= size && 1 <= b.0 && b.0 <= size
    }

    /// Whether the order from a to b was adopted.
    pub fn is_direct(&self, a: TypeNo, b: TypeNo) -> bool
        ensures { result ≡ is_direct self.now.orders a.0 b.0 }
    {
        self.covers(a, b) && self.matrix.direct(a, b)
    }

    /// Where the direct order from a to b comes from; `None` where there is none. The number of
    /// orders doesn't matter to how long it takes.
    pub fn origin(&self, a: TypeNo, b: TypeNo) -> Option<Origin>
        ensures { result ≡ origin_of a.0 b.0 self.now.orders }
    {
        let place = *self.places.get(&(a, b))?;
        let order = self.adopted.get(place)?;
        Some(order.origin)
    }

    /// Whether a path of adopted orders leads from a to b.
    pub fn is_before(&self, a: TypeNo, b: TypeNo) -> bool
        ensures { result ≡ is_before self.now.orders a.0 b.0 }
    {
        self.covers(a, b) && self.matrix.before(a, b)
    }

    /// The relation of a to b, in the bits of `wit_matrix`.
    pub fn cell(&self, a: TypeNo, b: TypeNo) -> u8
        requires a { IsNumber self.now.size a.0 }
        requires b { IsNumber self.now.size b.0 }
        ensures { result ≡ cell self.now.orders self.now.found a.0 b.0 }
    {
        self.matrix.cell(a, b)
    }

    /// The path of adopted orders from one type to another that goes each time to the least type:
    /// `None` where none leads there. It is the same among any number of types that the orders are
    /// between.
    ///
    /// # Errors
    /// `OutOfMemory` alone, and only where a path leads there.
    pub fn path(&self, from: TypeNo, to: TypeNo) -> Result<Option<Vec<TypeNo>>, Fault>
        ensures ok { IfOk result (λ p. (types : ℕ) → OrdersAmong types self.now.orders
            → path_numbers p ≡ path self.now.orders types from.0 to.0) }
        ensures leads { IfOk result (λ p. IfSome (path_numbers p)
            (LeadsBy self.now.orders from.0 to.0)) }
        ensures err { IfErr result (λ e. (e ≡ OutOfMemory)
            × (is_before self.now.orders from.0 to.0 ≡ true)) }
    {
        if !self.is_before(from, to) {
            return Ok(None);
        }
        // Called for its clause that no type is before itself.
        let _size = self.matrix.size();
        self.matrix.path(from, to)
    }
}

impl Orders {
    /// The adopted orders, oldest first.
    pub fn adopted(&self) -> &[Adoption]
        ensures { reverse result.now ≡ self.now.orders }
    {
        &self.adopted
    }

    /// Makes room for this many orders more.
    ///
    /// # Errors
    /// Want of memory alone.
    pub fn make_room(&mut self, more: usize) -> Result<(), AllocError>
        ensures same { self.new ≡ record self.old { spare = self.new.spare } }
        ensures grows { self.old.spare ≤ self.new.spare }
        ensures ok { OnOk result (more ≤ self.new.spare) }
    {
        self.adopted.reserve(more)?;
        self.places.reserve(more)?;
        Ok(())
    }

    /// Adopts an order. With it the parent and all types before it come before the child and all
    /// after it. It takes no memory.
    pub fn adopt(&mut self, order: Adoption)
        requires follows { CanFollow self.old.size self.old.orders order.parent.0 order.child.0 }
        requires room { 0 < self.old.spare }
        ensures adopted { self.new ≡ record self.old {
          orders = order ∷ self.old.orders;
          spare = self.new.spare;
        } }
        ensures room { self.old.spare ≤ self.new.spare + 1 }
    {
        let place = self.adopted.len();
        self.adopted.push_reserved(order);
        let _new = self
            .places
            .insert((order.parent, order.child), place)
            .unwrap();
        self.matrix.adopt(order.parent, order.child);
    }

    /// Adopts the orders that a request at this place teaches, one after the other. It takes no
    /// memory.
    pub fn adopt_all(&mut self, pairs: &[(TypeNo, TypeNo)], site: Site)
        requires follow { CanAllFollow self.old.size self.old.orders pairs.now }
        requires room { length pairs.now ≤ self.old.spare }
        ensures { self.new ≡ record self.old {
          orders = reverse (map (taught_at site) pairs.now) ++ self.old.orders;
          spare = self.new.spare;
        } }
    {
        for place in 0..pairs.len() {
            self.adopt(taught_at(&pairs[place], site));
        }
    }

    /// Finds the unordered pair of a and b in violation; a pair that was found stays as it is. It
    /// takes no memory.
    pub fn find(&mut self, a: TypeNo, b: TypeNo)
        requires a { IsNumber self.old.size a.0 }
        requires b { IsNumber self.old.size b.0 }
        ensures found { HasSameFound self.new.found (found_once a b self.old.found) }
        ensures rest { self.new ≡ record self.old { found = self.new.found } }
    {
        self.matrix.set_reversal(a, b);
    }
}

// The order of these types, as a request at this place teaches it.
fn taught_at(pair: &(TypeNo, TypeNo), site: Site) -> Adoption
    ensures { result ≡ taught_at site pair.now }
{
    Adoption {
        parent: pair.0,
        child: pair.1,
        origin: Origin::At(site),
    }
}
