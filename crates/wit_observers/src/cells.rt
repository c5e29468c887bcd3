//! The numbers of adopted orders, in a square of cells: for each two types the number of the order
//! from the row's to the column's, or 0.

ghost use Rattle.std.specs.Prelude.{◌≡◌, ◌+◌, ◌*◌, ◌<◌, ◌≤◌, ◌^◌, ◌&&◌, IfOk, length, replicate};
ghost use Rattle.wit_observers.specs.Numbers.{fits, cell_place, number_at, numbered_one};
ghost use Rattle.wit_observers.specs.Numbers.{numbered_all};
ghost use Rattle.wit_model.specs.Rules.Numbers.{IsNumber};

use std::alloc::{AllocError, Global};
use wit_model::{Adoption, TypeNo};

/// Cells for this many types, with no order. They are as many as the types squared.
///
/// # Errors
/// Want of memory alone.
pub fn blank(alloc: Global, n: u16) -> Result<Vec<u32>, AllocError>
    ensures { IfOk result (λ v. v.items ≡ replicate (n * n) 0) }
{
    vec![in alloc; 0; n as usize * n as usize]
}

// Whether both are among the first n types.
fn fits(n: u16, a: TypeNo, b: TypeNo) -> bool
    ensures { result ≡ fits n a.0 b.0 }
{
    1 <= a.0 && a.0 <= n && 1 <= b.0 && b.0 <= n
}

// Where the order from a to b stands.
fn place(n: u16, a: TypeNo, b: TypeNo) -> usize
    requires a { IsNumber n a.0 }
    requires b { IsNumber n b.0 }
    ensures value { result ≡ cell_place n a.0 b.0 }
    ensures within { result < n * n }
{
    (a.0 as usize - 1) * n as usize + (b.0 as usize - 1)
}

/// The number of the order from a to b, 0 where it has none.
pub fn number_at(n: u16, cells: &[u32], a: TypeNo, b: TypeNo) -> u32
    requires { length cells.now ≡ n * n }
    ensures { result ≡ number_at n cells.now a.0 b.0 }
{
    if fits(n, a, b) {
        cells[place(n, a, b)]
    } else {
        0
    }
}

// Gives an order its number, unless it has one.
fn put(n: u16, cells: &mut [u32], order: Adoption, number: u32)
    requires { length cells.old ≡ n * n }
    ensures { cells.new ≡ numbered_one n cells.old order.parent.0 order.child.0 number }
{
    let (a, b) = (order.parent, order.child);
    if fits(n, a, b) && number_at(n, cells, a, b) == 0 {
        cells[place(n, a, b)] = number;
    }
}

/// Gives orders the numbers behind those of so many before them. An order that has a number keeps
/// it.
pub fn put_all(n: u16, cells: &mut [u32], before: u32, orders: &[Adoption])
    requires square { length cells.old ≡ n * n }
    requires room { before + length orders.now < 2 ^ 32 }
    ensures { cells.new ≡ numbered_all n cells.old before orders.now }
{
    for index in 0..orders.len() {
        put(n, cells, orders[index], before + index as u32 + 1);
    }
}
