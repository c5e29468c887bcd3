//! The search for a shortest way from one type to another.

ghost use Rattle.std.specs.Prelude.{◌≡◌, ℕ, ◌<◌, length, slice_index, IfOk, OnOk, IsTrue, ◌↔◌};
ghost use Rattle.wit_circles.specs.Searching.{rows_of, row, IsTable, TellsWay, IsTrail, Next};
ghost use Rattle.wit_circles.specs.Searching.{IsSearch, Reaches, type_met};
ghost use Rattle.wit_circles.specs.Orders.{IsWayBy};

use std::alloc::{AllocError, Global};

// A type that was met, and the place of the one from which it was, among those that were.
#[derive(Clone, Copy)]
struct Met {
    of: usize,
    before: usize,
}

/// A way from the first type to the last: the types on it but for the first one. For each type there
/// are those that come next after it. `None` exactly where there is no way.
///
/// # Errors
/// Want of memory alone.
pub fn way(
    alloc: Global,
    rows: &[Vec<usize>],
    first: usize,
    last: usize,
) -> Result<Option<Vec<usize>>, AllocError>
    requires table { IsTable (rows_of rows.now) }
    requires first { first < length rows.now }
    ensures { IfOk result (TellsWay (rows_of rows.now) first last) }
{
    if first == last {
        return Ok(Some(Vec::new(alloc)));
    }
    let mut marks = vec![in alloc; false; rows.len()]?;
    marks[first] = true;
    let mut met = Vec::new(alloc);
    met.push(Met {
        of: first,
        before: 0,
    })?;
    for place in 0..rows.len() {
        if place == met.len() {
            return Ok(None);
        }
        let next = rows[met[place].of].as_slice();
        if has(next, last) {
            return Ok(Some(way_back(alloc, rows, &met, place, last)?));
        }
        reach(rows, next, &mut met, &mut marks, first, last, place)?;
    }
    Ok(None)
}

fn has(row: &[usize], of: usize) -> bool
    ensures { IsTrue result ↔ ((k : ℕ) × (k < length row.now) × (slice_index row.now k ≡ of)) }
{
    row.iter().any(|&other| other == of)
}

// The way from the first type to the one at this place, and to the last one, which comes next after
// it.
fn way_back(
    alloc: Global,
    rows: &[Vec<usize>],
    met: &[Met],
    place: usize,
    last: usize,
) -> Result<Vec<usize>, AllocError>
    requires trail { IsTrail (rows_of rows.now) (type_met met.now 0) met.now }
    requires place { place < length met.now }
    requires next { Next (rows_of rows.now) (type_met met.now place) last }
    ensures { IfOk result (λ way. IsWayBy (Next (rows_of rows.now)) (type_met met.now 0) way.items
        last) }
{
    let mut way = Vec::new(alloc);
    way.push(last)?;
    let mut at = place;
    while at > 0 {
        way.push(met[at].of)?;
        at = met[at].before;
    }
    way.reverse();
    Ok(way)
}

// Meets all types of the row that weren't met: those that come next after the one at this place.
fn reach(
    rows: &[Vec<usize>],
    next: &[usize],
    met: &mut Vec<Met>,
    marks: &mut [bool],
    first: usize,
    last: usize,
    place: usize,
) -> Result<(), AllocError>
    requires table { IsTable (rows_of rows.now) }
    requires search { IsSearch (rows_of rows.now) first last met.old.items marks.old }
    requires place { place < length met.old.items }
    requires row { next.now ≡ row (rows_of rows.now) (type_met met.old.items place) }
    requires without { (k : ℕ) → k < length next.now → slice_index next.now k ≡ last → ⊥ }
    ensures { OnOk result (Reaches (rows_of rows.now) first last (length next.now) next.now
        met.old.items met.new.items marks.old marks.new) }
{
    for &of in next {
        if !marks[of] {
            met.push(Met { of, before: place })?;
            marks[of] = true;
        }
    }
    Ok(())
}
