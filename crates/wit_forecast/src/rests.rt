//! Before which lines of a trace their seats had nothing.

ghost use Rattle.std.specs.Prelude.{◌≡◌, ◌⊎◌, ◌∷◌, ℕ, List, [], true, None, Some, get_or, IfOk, IfSome};
ghost use Rattle.wit_forecast.specs.Errands.{doing, frees, gets, had, makes, AreRests};
ghost use Rattle.wit_forecast.specs.Owners.{goes_on};

use crate::deeds::Deed;
use crate::owners::{field_of, goes_on};
use std::alloc::{AllocError, Global};

/// Whether a line makes a lock.
pub fn makes(line: &[u8]) -> bool
    ensures { result ≡ makes line.now }
{
    line.starts_with(b"init ")
}

fn gets(line: &[u8]) -> bool
    ensures { result ≡ gets line.now }
{
    line.starts_with(b"take ") || line.starts_with(b"trytake ")
}

fn frees(line: &[u8]) -> bool
    ensures { result ≡ frees line.now }
{
    line.starts_with(b"free ")
}

// How many shares a seat has after its line; none where that can't be counted.
fn shares_after(line: &[u8], shares: u64) -> Option<u64>
    ensures { (seat : List ℕ) → goes_on seat line.now ≡ true
        → IfSome result (λ after. after ≡ had shares (doing seat (line.now ∷ []))) }
{
    if makes(line) {
        Some(shares)
    } else if gets(line) {
        shares.checked_add(1)
    } else if frees(line) {
        Some(shares.saturating_sub(1))
    } else {
        Some(shares)
    }
}

// The seat, where it has no shares.
fn rested(seat: u16, shares: u64) -> Option<u16>
    ensures { (number : ℕ) → result ≡ Some number → (number ≡ seat) × (shares ≡ 0) }
{
    match shares == 0 {
        true => Some(seat),
        false => None,
    }
}

/// Whether a seat has nothing before the line of this place.
pub fn had_nothing(rests: &[Option<u16>], place: usize, seat: u16) -> bool
    ensures { result ≡ true → (place ≡ 0) ⊎ (get_or rests.now place None ≡ Some seat) }
{
    if place == 0 {
        return true;
    }
    match rests.get(place) {
        Some(Some(rested)) => *rested == seat,
        _ => false,
    }
}

// No trace has more seats.
const SEATS: usize = 257;

/// For each line whose seat it is, where that one has nothing before it. The deeds say whose a line is.
/// From the first one on that isn't the seat's, nothing is told.
///
/// # Errors
/// Want of memory alone.
pub fn rests_of(
    alloc: Global,
    body: &[Vec<u8>],
    deeds: &[Deed],
) -> Result<Vec<Option<u16>>, AllocError>
    ensures { IfOk result (λ rests. AreRests rests.items body.now) }
{
    let mut had = vec![in alloc; 0u64; SEATS]?;
    let mut rests = Vec::new(alloc);
    for place in 0..body.len() {
        let Some(deed) = deeds.get(place) else {
            return Ok(rests);
        };
        let seat = deed.seat.0;
        let field = field_of(alloc, seat)?;
        let line = &body[place];
        let number = usize::from(seat);
        if number >= SEATS || !goes_on(line, &field) {
            return Ok(rests);
        }
        let shares = had[number];
        let Some(after) = shares_after(line, shares) else {
            return Ok(rests);
        };
        rests.push(rested(seat, shares))?;
        had[number] = after;
    }
    Ok(rests)
}
