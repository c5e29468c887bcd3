//! The facts that may be in a circle of single locks, whatever keeps its threads apart.

ghost use Rattle.std.specs.Prelude.{◌≡◌, ◌&&◌, ◌++◌, IfOk};
ghost use Rattle.std.specs.List.{list_any, range_with_len};
ghost use Rattle.wit_alarms.specs.Facts.{can_wait, no_reasons, of_both};
ghost use Rattle.wit_alarms.specs.Searching.{IsEnough};

use crate::facts::Fact;
use std::alloc::{AllocError, Global};

// Whether the one asks for the lock that the other holds.
fn is_linked(facts: &[Fact], one: usize, other: usize) -> bool
    ensures { result ≡ of_both (can_wait no_reasons) facts.now one other }
{
    match (facts.get(one), facts.get(other)) {
        (Some(one), Some(other)) => one.asked.lock == other.held.lock,
        _ => false,
    }
}

fn has_next(facts: &[Fact], place: usize, among: &[usize]) -> bool
    ensures { result ≡ list_any (of_both (can_wait no_reasons) facts.now place) among.now }
{
    among.iter().any(|&next| is_linked(facts, place, next))
}

fn has_previous(facts: &[Fact], place: usize, among: &[usize]) -> bool
    ensures { result ≡ list_any (λ k. of_both (can_wait no_reasons) facts.now k place) among.now }
{
    among
        .iter()
        .any(|&previous| is_linked(facts, previous, place))
}

// Whether the fact leads to one of these, and is led to by one of these: the facts before it that
// are kept, and those from it on.
fn is_between(facts: &[Fact], place: usize, kept: &[usize], rest: &[usize]) -> bool
    ensures { result ≡ (list_any (of_both (can_wait no_reasons) facts.now place)
        (kept.now ++ rest.now) && list_any (λ k. of_both (can_wait no_reasons) facts.now k place)
        (kept.now ++ rest.now)) }
{
    (has_next(facts, place, kept) || has_next(facts, place, rest))
        && (has_previous(facts, place, kept) || has_previous(facts, place, rest))
}

// Those of these facts that lead to one and are led to by one, where the others are gone.
fn swept(alloc: Global, facts: &[Fact], places: &[usize]) -> Result<Vec<usize>, AllocError>
    requires { IsEnough facts.now places.now }
    ensures { IfOk result (λ kept. IsEnough facts.now kept.items) }
{
    let mut kept = Vec::new(alloc);
    let mut rest = places;
    while let Some((&first, others)) = rest.split_first() {
        if is_between(facts, first, &kept, rest) {
            kept.push(first)?;
        }
        rest = others;
    }
    Ok(kept)
}

fn all_places(alloc: Global, count: usize) -> Result<Vec<usize>, AllocError>
    ensures { IfOk result (λ places. places.items ≡ range_with_len 0 count) }
{
    let mut places = Vec::new(alloc);
    for place in 0..count {
        places.push(place)?;
    }
    Ok(places)
}

/// The places of the facts that may be in a circle of single locks.
pub(crate) fn on_circles(alloc: Global, facts: &[Fact]) -> Result<Vec<usize>, AllocError>
    ensures { IfOk result (λ kept. IsEnough facts.now kept.items) }
{
    let mut kept = all_places(alloc, facts.len())?;
    for _ in 0..facts.len() {
        let fewer = swept(alloc, facts, &kept)?;
        if fewer.len() == kept.len() {
            break;
        }
        kept = fewer;
    }
    Ok(kept)
}
