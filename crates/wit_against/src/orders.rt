//! The orders that were read, each once, and their types.

ghost use Rattle.std.specs.Prelude.{length};
ghost use Rattle.wit_circles.specs.Orders.{AreWithin};

use indexmap::IndexSet;
use wit_circles::Order;

/// The orders that were read, each once.
#[derive(Drop)]
pub struct Orders {
    /// The types, as they are written.
    pub types: IndexSet<Vec<u8>>,
    /// The orders, by the numbers of their types.
    pub orders: IndexSet<Order>,
    /// The line in which each came first.
    pub lines: Vec<Vec<u8>>,
    ghost within: { AreWithin (length types.keys) orders.keys },
}
