//! A guess at ranks of types. Nothing is promised of it: who takes it looks whether each order goes
//! to a greater rank, and a bad guess costs time alone.

use crate::orders::Order;
use std::alloc::{AllocError, Global};

// A type that is being left, and which of those that come next after it was looked at last.
#[derive(Clone, Copy)]
struct Stop {
    of: usize,
    next: usize,
}

fn get(list: &[usize], at: usize) -> usize {
    list.get(at).copied().unwrap_or(0)
}

fn put(list: &mut [usize], at: usize, value: usize) {
    if let Some(place) = list.get_mut(at) {
        *place = value;
    }
}

fn all_rows(alloc: Global, types: usize, orders: &[Order]) -> Result<Vec<Vec<usize>>, AllocError> {
    let mut rows: Vec<Vec<usize>> = Vec::new(alloc);
    for _ in 0..types {
        rows.push(Vec::new(alloc))?;
    }
    for order in orders {
        if let Some(row) = rows.get_mut(order.from) {
            row.push(order.to)?;
        }
    }
    Ok(rows)
}

/// Ranks of so many types that have these orders: the types in the sequence in which a search by the
/// orders leaves them, turned round. Where the orders have no circle, each goes to a greater rank.
///
/// # Errors
/// Want of memory alone.
pub fn first_ranks(
    alloc: Global,
    types: usize,
    orders: &[Order],
) -> Result<Vec<usize>, AllocError> {
    let rows = all_rows(alloc, types, orders)?;
    let mut ranks = vec![in alloc; usize::MAX; types]?;
    let mut stops: Vec<Stop> = Vec::new(alloc);
    let mut root = 0;
    let mut left = types;
    let steps = types.saturating_mul(3).saturating_add(orders.len());
    for _ in 0..steps {
        let Some(stop) = stops.pop() else {
            if root >= types {
                break;
            }
            enter(&mut ranks, &mut stops, root)?;
            root += 1;
            continue;
        };
        let next = match rows.get(stop.of) {
            Some(row) => row.get(stop.next).copied(),
            None => None,
        };
        if let Some(next) = next {
            stops.push(Stop {
                of: stop.of,
                next: stop.next.saturating_add(1),
            })?;
            enter(&mut ranks, &mut stops, next)?;
        } else {
            left = left.saturating_sub(1);
            put(&mut ranks, stop.of, left);
        }
    }
    Ok(ranks)
}

// Goes to a type that has no rank yet, and gives it one till it is left.
fn enter(ranks: &mut [usize], stops: &mut Vec<Stop>, of: usize) -> Result<(), AllocError> {
    if get(ranks, of) == usize::MAX {
        put(ranks, of, usize::MAX - 1);
        stops.push(Stop { of, next: 0 })?;
    }
    Ok(())
}

/// The ranks, shared out anew where the order goes to a lesser one: its second type, and those that
/// this leads to, come after its first type.
///
/// # Errors
/// Want of memory alone.
pub fn moved_ranks(
    alloc: Global,
    rows: &[Vec<usize>],
    ranks: &[usize],
    order: Order,
) -> Result<Vec<usize>, AllocError> {
    let high = get(ranks, order.from);
    let is_after = led_to(alloc, rows, ranks, order.to, high)?;
    let mut sequence = vec![in alloc; 0; ranks.len()]?;
    for (of, &rank) in ranks.iter().enumerate() {
        put(&mut sequence, rank, of);
    }
    let mut moved = vec![in alloc; 0; ranks.len()]?;
    let mut after = Vec::new(alloc);
    let mut next = 0;
    for &of in &sequence {
        if is_after.get(of).copied().unwrap_or(false) {
            after.push(of)?;
        } else {
            put(&mut moved, of, next);
            next = usize::saturating_add(next, 1);
        }
        if get(ranks, of) == high {
            for &of in &after {
                put(&mut moved, of, next);
                next = usize::saturating_add(next, 1);
            }
            after.clear();
        }
    }
    Ok(moved)
}

// The types that one leads to, itself too, as far as they have no greater rank than this.
fn led_to(
    alloc: Global,
    rows: &[Vec<usize>],
    ranks: &[usize],
    first: usize,
    high: usize,
) -> Result<Vec<bool>, AllocError> {
    let mut marks = vec![in alloc; false; rows.len()]?;
    let mut met = Vec::new(alloc);
    mark(&mut marks, &mut met, first)?;
    for place in 0..rows.len() {
        let Some(&of) = met.get(place) else {
            break;
        };
        if let Some(row) = rows.get(of) {
            for &next in row {
                if get(ranks, next) <= high {
                    mark(&mut marks, &mut met, next)?;
                }
            }
        }
    }
    Ok(marks)
}

fn mark(marks: &mut [bool], met: &mut Vec<usize>, of: usize) -> Result<(), AllocError> {
    if let Some(is_marked) = marks.get_mut(of) {
        if !*is_marked {
            *is_marked = true;
            met.push(of)?;
        }
    }
    Ok(())
}
