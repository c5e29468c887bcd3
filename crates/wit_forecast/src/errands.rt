//! Whether chosen lines are errands of a trace, each from a moment on at which its seat had nothing.

ghost use Rattle.std.specs.Prelude.{◌≡◌, ◌∷◌, ◌≤◌, ℕ, true, IfOk, IfSome};
ghost use Rattle.wit_forecast.specs.Errands.{does, doing, makes, making, seatless, without_field, without_seats};
ghost use Rattle.wit_forecast.specs.Errands.{AreRests, Follows, HasErrand, IsErrand};
ghost use Rattle.wit_forecast.specs.Owners.{going_on, lines_in, Begins, most_seats};

use crate::owners::{after_space, field_of, goes_on};
use crate::rests::{had_nothing, makes};
use std::alloc::{AllocError, Global};

/// Which errand a seat does.
#[derive(Clone, Copy, Debug)]
pub struct Claim {
    /// Who does it in the schedule.
    pub seat: u16,
    /// Who did it in the trace.
    pub from: u16,
    /// The place of its first line there.
    pub first: usize,
}

/// The first lines that make locks, so many of them.
///
/// # Errors
/// Want of memory alone.
pub fn first_makings(
    alloc: Global,
    body: &[Vec<u8>],
    count: u32,
) -> Result<Vec<Vec<u8>>, AllocError>
    ensures { IfOk result (λ made. Begins (lines_in made.items) (making (lines_in body.now))) }
{
    let mut made = Vec::new(alloc);
    let mut rest = body;
    let mut left = count;
    while let Some((line, others)) = rest.split_first() {
        if left == 0 {
            return Ok(made);
        }
        if makes(line) {
            let line = Vec::from_slice(alloc, line)?;
            made.push(line)?;
            left -= 1;
        }
        rest = others;
    }
    Ok(made)
}

/// Whether two lines are one without the field after so many spaces.
pub fn is_alike(one: &[u8], other: &[u8], spaces: u32) -> bool
    ensures { result ≡ true → without_field one.now spaces ≡ without_field other.now spaces }
{
    match one {
        [] => other.is_empty(),
        [first, one_rest @ ..] => match other {
            [] => false,
            [second, other_rest @ ..] => {
                if spaces == 0 {
                    after_space(one) == after_space(other)
                } else if *first != *second {
                    false
                } else if *first == b' ' {
                    is_alike(one_rest, other_rest, spaces - 1)
                } else {
                    is_alike(one_rest, other_rest, spaces)
                }
            }
        },
    }
}

fn are_same(lines: &[Vec<u8>], others: &[Vec<u8>]) -> bool
    ensures { result ≡ true → lines_in lines.now ≡ lines_in others.now }
{
    match lines {
        [] => others.is_empty(),
        [line, rest @ ..] => match others {
            [] => false,
            [other, other_rest @ ..] => is_same(line, other) && are_same(rest, other_rest),
        },
    }
}

fn is_same(line: &[u8], other: &[u8]) -> bool
    ensures { result ≡ true → line.now ≡ other.now }
{
    line == other
}

/// Whether two preludes are one but for the number of seats.
pub fn opens(opening: &[Vec<u8>], head: &[Vec<u8>]) -> bool
    ensures { result ≡ true
        → without_seats (lines_in opening.now) ≡ without_seats (lines_in head.now) }
{
    match opening {
        [] => head.is_empty(),
        [one, one_rest @ ..] => match head {
            [] => false,
            [other, other_rest @ ..] => is_alike(one, other, 3) && are_same(one_rest, other_rest),
        },
    }
}

// Whether a seat does this, and makes no lock by it.
fn does(line: &[u8], seat: &[u8]) -> bool
    ensures { result ≡ does seat.now line.now }
{
    goes_on(line, seat) && !makes(line)
}

// The first of these lines that a seat does without making a lock, and those after it.
fn next_done<'a>(seat: &[u8], lines: &'a [Vec<u8>]) -> Option<(&'a Vec<u8>, &'a [Vec<u8>])>
    ensures { IfSome result (λ p. doing seat.now (lines_in lines.now)
        ≡ p.0.now.items ∷ doing seat.now (lines_in p.1.now)) }
{
    match lines {
        [] => None,
        [first, others @ ..] => {
            if does(first, seat) {
                Some((first, others))
            } else {
                next_done(seat, others)
            }
        }
    }
}

// Whether the chosen lines of the one seat, without it, begin what the other one does.
fn follows(seat: &[u8], chosen: &[Vec<u8>], from: &[u8], lines: &[Vec<u8>]) -> bool
    ensures { result ≡ true
        → Follows (going_on seat.now (lines_in chosen.now)) (doing from.now (lines_in lines.now)) }
{
    match chosen {
        [] => true,
        [line, others @ ..] => {
            if goes_on(line, seat) {
                match next_done(from, lines) {
                    Some((first, rest)) => is_alike(line, first, 1)
                        && follows(seat, others, from, rest),
                    None => false,
                }
            } else {
                follows(seat, others, from, lines)
            }
        }
    }
}

/// Whether the chosen lines are errands of the trace by these claims; each its seat's own, where that is
/// wanted.
///
/// # Errors
/// Want of memory alone.
pub fn all_follow(
    alloc: Global,
    body: &[Vec<u8>],
    rests: &[Option<u16>],
    chosen: &[Vec<u8>],
    claims: &[Claim],
    own_alone: bool,
) -> Result<bool, AllocError>
    requires { AreRests rests.now body.now }
    ensures { IfOk result (λ b. b ≡ true → (seat : ℕ) → seat ≤ most_seats
        → HasErrand own_alone (lines_in chosen.now) (lines_in body.now) seat) }
{
    for seat in 0..257u16 {
        let claim = claim_of(claims, seat);
        if !may_be(own_alone, claim, seat) {
            return Ok(false);
        }
        if !does_errand(alloc, body, rests, chosen, seat, claim)? {
            return Ok(false);
        }
    }
    Ok(true)
}

// The claim of a seat; where it has none, that it goes on from the beginning.
fn claim_of(claims: &[Claim], seat: u16) -> Claim {
    for claim in claims {
        if claim.seat == seat {
            return *claim;
        }
    }
    Claim {
        seat,
        from: seat,
        first: 0,
    }
}

// Whether a claim names the seat itself, where that is wanted.
fn may_be(own_alone: bool, claim: Claim, seat: u16) -> bool
    ensures { result ≡ true → own_alone ≡ true → claim.from ≡ seat }
{
    !own_alone || claim.from == seat
}

fn does_errand(
    alloc: Global,
    body: &[Vec<u8>],
    rests: &[Option<u16>],
    chosen: &[Vec<u8>],
    seat: u16,
    claim: Claim,
) -> Result<bool, AllocError>
    requires { AreRests rests.now body.now }
    ensures { IfOk result (λ b. b ≡ true
        → IsErrand seat claim.from (lines_in chosen.now) (lines_in body.now)) }
{
    if claim.first > body.len() || !had_nothing(rests, claim.first, claim.from) {
        return Ok(false);
    }
    let seat = field_of(alloc, seat)?;
    let from = field_of(alloc, claim.from)?;
    let (_before, lines) = body.split_at(claim.first);
    Ok(follows(&seat, chosen, &from, lines))
}
