//! Orders, judged one after the other.

ghost use Rattle.std.specs.Prelude.{[], IfOk};
ghost use Rattle.wit_circles.specs.Orders.{AreWithin, Judged, told_of};

use crate::kept::Kept;
use crate::orders::{Against, Order};
use std::alloc::{AllocError, Global};

/// What is against others among orders of so many types: each that closes a circle with those that
/// were kept before it. Any other is kept.
///
/// # Errors
/// Want of memory alone.
pub fn judge(alloc: Global, types: usize, orders: &[Order]) -> Result<Vec<Against>, AllocError>
    requires { AreWithin types orders.now }
    ensures { IfOk result (λ told. Judged [] orders.now (told_of told.items)) }
{
    let mut kept = Kept::new(alloc, types, orders)?;
    let mut told = Vec::new(alloc);
    for &order in orders {
        match kept.way_back(alloc, order)? {
            Some(way) => told.push(Against { order, way })?,
            None => kept.keep(alloc, order)?,
        }
    }
    Ok(told)
}
