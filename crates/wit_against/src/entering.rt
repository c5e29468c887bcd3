//! Entering an order, and its line.

ghost use Rattle.std.specs.Prelude.{◌≡◌, ◌<◌, ◌≤◌, length, IfOk, OnOk};
ghost use Rattle.wit_orders.specs.Sequence.{written};
ghost use Rattle.wit_against.specs.Known.{line_of, nothing_known, number_of, with_order, with_type};
ghost use Rattle.wit_against.specs.Judging.{known};

use crate::orders::Orders;
use indexmap::IndexSet;
use std::alloc::{AllocError, Global};
use wit_circles::Order;
use wit_orders::sequence::place_of;

impl Orders {
    /// None yet.
    pub fn new(alloc: Global) -> Orders
        ensures { known result ≡ nothing_known }
    {
        Orders {
            types: IndexSet::new(alloc),
            orders: IndexSet::new(alloc),
            lines: Vec::new(alloc),
        }
    }

    /// Enters the order of these two types, which came in this line, unless it came before.
    ///
    /// # Errors
    /// Want of memory alone.
    pub fn enter(
        &mut self,
        alloc: Global,
        from: &[u8],
        to: &[u8],
        line: &[u8],
    ) -> Result<(), AllocError>
        ensures { OnOk result
            (known self.new ≡ with_order (known self.old) from.now to.now line.now) }
    {
        let from = number(alloc, &mut self.types, from)?;
        let to = number(alloc, &mut self.types, to)?;
        if self.orders.insert(Order { from, to })? {
            self.lines.push(Vec::from_slice(alloc, line)?)?;
        }
        Ok(())
    }

    /// The line of an order; an empty one where the order isn't there.
    pub fn line(&self, order: Order) -> &[u8]
        ensures { result.now ≡ line_of (known self.now) order }
    {
        let Some(place) = self.orders.get_index_of(&order) else {
            return b"";
        };
        match self.lines.get(place) {
            Some(line) => line.as_slice(),
            None => b"",
        }
    }
}

// The number of the type that is written so, which is entered where it isn't there.
fn number(alloc: Global, types: &mut IndexSet<Vec<u8>>, text: &[u8]) -> Result<usize, AllocError>
    ensures types { OnOk result
        (written types.new.keys ≡ with_type (written types.old.keys) text.now) }
    ensures number { IfOk result (λ n. n ≡ number_of (written types.old.keys) text.now) }
    ensures within { IfOk result (λ n. n < length types.new.keys) }
    ensures more { length types.old.keys ≤ length types.new.keys }
{
    if let Some(place) = place_of(types, text) {
        return Ok(place);
    }
    let place = types.len();
    types.insert(Vec::from_slice(alloc, text)?)?;
    Ok(place)
}
