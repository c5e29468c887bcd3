//! The orders that are kept.

ghost use Rattle.std.specs.Prelude.{◌≡◌, ◌<◌, ℕ, [], ◌∷◌, ◌++◌, List, true, length, slice_index, slice_index_or, slice_set};
ghost use Rattle.std.specs.Prelude.{IfOk, OnOk, map};
ghost use Rattle.std.specs.Global.{Vec};
ghost use Rattle.wit_circles.specs.declared.orders.Order.{Order};
ghost use Rattle.wit_circles.specs.Keeping.{AreKept, IsKept, Rises, TellsBack};
ghost use Rattle.wit_circles.specs.Searching.{rows_of, row};

use crate::orders::Order;
use crate::ranks::{first_ranks, moved_ranks};
use crate::search::way;
use std::alloc::{AllocError, Global};

/// The orders that are kept.
#[derive(Drop)]
pub struct Kept {
    /// For each type those that come next after it.
    rows: Vec<Vec<usize>>,
    /// A number for each type.
    ranks: Vec<usize>,
    /// Whether each order is known to go to a greater rank. Then an order that does so, too, closes
    /// no circle, and no way has to be looked for.
    are_ranked: bool,
}

impl Kept {
    /// No order, of so many types; these come after it.
    ///
    /// # Errors
    /// Want of memory alone.
    pub fn new(alloc: Global, types: usize, orders: &[Order]) -> Result<Kept, AllocError>
        ensures kept { IfOk result (λ kept. IsKept [] kept) }
        ensures size { IfOk result (λ kept. length kept.rows.items ≡ types) }
    {
        Ok(Kept {
            rows: empty_rows(alloc, types)?,
            ranks: first_ranks(alloc, types, orders)?,
            are_ranked: true,
        })
    }

    fn rank(&self, of: usize) -> usize
        ensures { result ≡ slice_index self.now.ranks.items of }
    {
        self.ranks.get(of).copied().unwrap_or(0)
    }

    fn goes_up(&self, order: Order) -> bool
        ensures { result ≡ true → (self.now.are_ranked ≡ true) × (slice_index self.now.ranks.items order.from < slice_index self.now.ranks.items order.to) }
    {
        self.are_ranked && self.rank(order.from) < self.rank(order.to)
    }

    /// A way from the second type of the order to its first, if there is one.
    ///
    /// # Errors
    /// Want of memory alone.
    pub fn way_back(&self, alloc: Global, order: Order) -> Result<Option<Vec<usize>>, AllocError>
        requires kept { AreKept self.now }
        requires to { order.to < length self.now.rows.items }
        ensures { (orders : List Order) → IsKept orders self.now → IfOk result (TellsBack orders order) }
    {
        if self.goes_up(order) {
            return Ok(None);
        }
        way(alloc, &self.rows, order.to, order.from)
    }

    /// Keeps one more.
    ///
    /// # Errors
    /// Want of memory alone; nothing is promised then.
    pub fn keep(&mut self, alloc: Global, order: Order) -> Result<(), AllocError>
        requires kept { AreKept self.old }
        requires from { order.from < length self.old.rows.items }
        requires to { order.to < length self.old.rows.items }
        ensures kept { (orders : List Order) → IsKept orders self.old → OnOk result (IsKept (order ∷ orders) self.new) }
        ensures size { OnOk result (length self.new.rows.items ≡ length self.old.rows.items) }
    {
        let goes_up = self.goes_up(order);
        link(&mut self.rows, order)?;
        if !goes_up {
            self.ranks = moved_ranks(alloc, &self.rows, &self.ranks, order)?;
            self.are_ranked = rises(&self.rows, &self.ranks);
        }
        Ok(())
    }
}

fn empty_rows(alloc: Global, types: usize) -> Result<Vec<Vec<usize>>, AllocError>
    ensures { IfOk result (λ rows. (length rows.items ≡ types) × ((a : ℕ) → row (rows_of rows.items) a ≡ [])) }
{
    let mut rows = Vec::new(alloc);
    for _ in 0..types {
        rows.push(Vec::new(alloc))?;
    }
    Ok(rows)
}

// One more type comes next after the order's first one.
fn link(rows: &mut Vec<Vec<usize>>, order: Order) -> Result<(), AllocError>
    requires { order.from < length rows.old.items }
    ensures { OnOk result (rows_of rows.new.items ≡ slice_set (rows_of rows.old.items) order.from
        (row (rows_of rows.old.items) order.from ++ order.to ∷ [])) }
{
    rows[order.from].push(order.to)?;
    Ok(())
}

// Whether each order goes to a greater rank.
fn rises(rows: &[Vec<usize>], ranks: &[usize]) -> bool
    ensures { result ≡ true → Rises (rows_of rows.now) ranks.now }
{
    for (from, row) in rows.iter().enumerate() {
        if !row_rises(row, rank(ranks, from), ranks) {
            return false;
        }
    }
    true
}

fn rank(ranks: &[usize], of: usize) -> usize
    ensures { result ≡ slice_index ranks.now of }
{
    ranks.get(of).copied().unwrap_or(0)
}

fn row_rises(row: &[usize], low: usize, ranks: &[usize]) -> bool
    ensures { result ≡ true → (k : ℕ) → k < length row.now → low < slice_index ranks.now (slice_index row.now k) }
{
    for &to in row {
        if low >= rank(ranks, to) {
            return false;
        }
    }
    true
}
