//! Whose lines stand where: of two lists of lines, whether one has a beginning of each seat's own lines
//! in the other.

ghost use Rattle.std.specs.Prelude.{◌≡◌, ℕ, ◌≤◌, ◌∷◌, true, IfSome, IfOk};
ghost use Rattle.wit_forecast.specs.Owners.{lines_in, after_space, goes_on, going_on, own, field, Begins, most_seats};

use std::alloc::{AllocError, Global};

/// The bytes after the first space.
pub fn after_space(line: &[u8]) -> &[u8]
    ensures { result.now ≡ after_space line.now }
{
    match line {
        [] => line,
        [byte, rest @ ..] => {
            if *byte == b' ' {
                rest
            } else {
                after_space(rest)
            }
        }
    }
}

/// Whether this stands after the first space of a line.
pub fn goes_on(line: &[u8], field: &[u8]) -> bool
    ensures { result ≡ goes_on field.now line.now }
{
    after_space(line).starts_with(field)
}

// The first of these lines that goes on so, and those after it.
fn next_own<'a>(field: &[u8], lines: &'a [Vec<u8>]) -> Option<(&'a Vec<u8>, &'a [Vec<u8>])>
    ensures { IfSome result (λ p. going_on field.now (lines_in lines.now)
        ≡ p.0.now.items ∷ going_on field.now (lines_in p.1.now)) }
{
    match lines {
        [] => None,
        [first, others @ ..] => {
            if goes_on(first, field) {
                Some((first, others))
            } else {
                next_own(field, others)
            }
        }
    }
}

// Whether of the lines that go on so the chosen ones begin all.
#[tactic(auto, using(crate::proofs::Owned::begins_none, crate::proofs::Owned::begins_more))]
fn begins(field: &[u8], chosen: &[Vec<u8>], all: &[Vec<u8>]) -> bool
    ensures { result ≡ true
        → Begins (going_on field.now (lines_in chosen.now)) (going_on field.now (lines_in all.now)) }
{
    match chosen {
        [] => true,
        [line, others @ ..] => {
            if goes_on(line, field) {
                match next_own(field, all) {
                    Some((first, rest)) => first == line && begins(field, others, rest),
                    None => false,
                }
            } else {
                begins(field, others, all)
            }
        }
    }
}

/// Whether of each seat's own lines the chosen ones are a beginning of all.
///
/// # Errors
/// Want of memory alone.
pub fn all_begin(alloc: Global, chosen: &[Vec<u8>], all: &[Vec<u8>]) -> Result<bool, AllocError>
    ensures { IfOk result (λ b. b ≡ true → (seat : ℕ) → seat ≤ most_seats
        → Begins (own seat (lines_in chosen.now)) (own seat (lines_in all.now))) }
{
    for seat in 0..257u16 {
        if !begins_of(alloc, seat, chosen, all)? {
            return Ok(false);
        }
    }
    Ok(true)
}

fn begins_of(
    alloc: Global,
    seat: u16,
    chosen: &[Vec<u8>],
    all: &[Vec<u8>],
) -> Result<bool, AllocError>
    ensures { IfOk result (λ b. b ≡ true
        → Begins (own seat (lines_in chosen.now)) (own seat (lines_in all.now))) }
{
    let field = field_of(alloc, seat)?;
    Ok(begins(&field, chosen, all))
}

/// A seat's number, as a field that another one follows.
///
/// # Errors
/// Want of memory alone.
pub fn field_of(alloc: Global, seat: u16) -> Result<Vec<u8>, AllocError>
    ensures { IfOk result (λ bytes. bytes.items ≡ field seat) }
{
    let mut text = seat.to_string(alloc)?;
    text.push(' ')?;
    Ok(text.into_bytes())
}
