//! Rows of bits: for a type that is asked for, the types that were held then.

ghost use Rattle.std.specs.Prelude.{◌≡◌, ◌<◌, ℕ, ◌||◌, ◌==◌, true, false};
ghost use Rattle.std.specs.List.{list_all};
ghost use Rattle.wit_condensed.specs.declared.chain.Link.{Link};
ghost use Rattle.wit_condensed.specs.Chains.{are_types, has_type};
ghost use Rattle.wit_condensed.specs.Rows.{has_bit, has_pair};

use crate::chain::Link;

/// Types have numbers below this one.
pub const TYPES: u16 = 1024;

/// How many words a row has: bits for so many types.
pub const WORDS: usize = 16;

/// Whether a row has the bit of a type. It has none of what is no number of a type.
pub fn has_bit(row: &[u64; WORDS], held: u16) -> bool
    ensures { result ≡ has_bit row.now held }
{
    match row.get(held as usize / 64) {
        Some(word) => word >> (held % 64) & 1 == 1,
        None => false,
    }
}

/// Whether a row has the bits of all types of a chain.
pub fn has_bits(row: &[u64; WORDS], links: &[Link]) -> bool
    ensures { result ≡ list_all (λ (link : Link). has_bit row.now link.type_no) links.now }
{
    links.iter().all(|link| has_bit(row, link.type_no))
}

/// Adds the bit of a type.
pub fn add_bit(row: &mut [u64; WORDS], held: u16)
    requires { held < TYPES }
    ensures { (a : ℕ) → has_bit row.new a ≡ (has_bit row.old a || (held == a)) }
{
    row[held as usize / 64] |= 1 << (held % 64);
}

/// Adds the bits of all types of a chain.
pub fn add_bits(row: &mut [u64; WORDS], links: &[Link])
    requires { are_types links.now ≡ true }
    ensures { (a : ℕ) → has_bit row.new a ≡ (has_bit row.old a || has_type links.now a) }
{
    'links: for link in links {
        add_bit(row, link.type_no);
    }
}

/// Takes all bits away.
pub fn clear(rows: &mut [[u64; WORDS]])
    ensures { (a b : ℕ) → has_pair rows.new a b ≡ false }
{
    'rows: for row in rows.iter_mut() {
        *row = [0; WORDS];
    }
}
