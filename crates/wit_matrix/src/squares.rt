//! Squares of bits: for each type a row of words, in which the bit of a number stands for the type
//! of that number.

ghost use Rattle.std.specs.Prelude.{◌≡◌, ◌<◌, ◌*◌, ◌&&◌, ◌==◌, ◌+◌, ◌/◌, ◌%◌, ◌^◌, ◌≤◌, not, false};
ghost use Rattle.std.specs.Prelude.{IfOk, IfErr, replicate};
ghost use Rattle.wit_model.specs.declared.faults.Fault.TheVariants.{OutOfMemory};
ghost use Rattle.wit_model.specs.declared.sizes.TheConstants.Limits.{MOST_TYPES};
ghost use Rattle.wit_matrix.specs.Squares.{width, word_place, has, IsSquare, AddsWhere, AreMirrors};
ghost use Rattle.wit_matrix.specs.Squares.{IsTransitive, HasNone, ReachesNone, is_at, reaches};
ghost use Rattle.wit_matrix.specs.Squares.{joins_row, joins, links};
ghost use Rattle.wit_model.specs.Rules.Numbers.{IsNumber};

use std::alloc::Global;
use wit_model::{Fault, TypeNo};

// How many words a row has.
fn width(n: u16) -> usize
    ensures value { result ≡ width n }
    ensures within { result ≤ 1024 }
{
    n as usize / 64 + 1
}

// Where a word of a row stands.
fn place(n: u16, row: TypeNo, word: usize) -> usize
    requires row { IsNumber n row.0 }
    requires word { word < width n }
    ensures value { result ≡ word_place n row.0 word }
    ensures within { result < n * width n }
{
    (row.0 as usize - 1) * width(n) + word
}

// The word with the bit of a number alone, among the 64 numbers of its word.
fn mask(column: TypeNo) -> u64
    ensures { result ≡ 2 ^ (column.0 % 64) }
{
    1 << (column.0 % 64)
}

/// A square with no bits.
///
/// # Errors
/// `OutOfMemory` alone.
pub fn blank(alloc: Global, n: u16) -> Result<Vec<u64>, Fault>
    ensures ok { IfOk result (λ v. v.items ≡ replicate (n * width n) 0) }
    ensures err { IfErr result (λ e. e ≡ OutOfMemory) }
{
    Ok(vec![in alloc; 0; n as usize * width(n)]?)
}

/// Whether a row has the bit of a column.
pub fn has(words: &[u64], n: u16, row: TypeNo, column: TypeNo) -> bool
    requires square { IsSquare n words.now }
    requires row { IsNumber n row.0 }
    requires column { IsNumber n column.0 }
    ensures { result ≡ has n words.now row.0 column.0 }
{
    words[place(n, row, column.0 as usize / 64)] >> (column.0 % 64) & 1 == 1
}

/// Adds one bit.
pub fn add(words: &mut [u64], n: u16, row: TypeNo, column: TypeNo)
    requires square { IsSquare n words.old }
    requires row { IsNumber n row.0 }
    requires column { IsNumber n column.0 }
    ensures square { IsSquare n words.new }
    ensures added { AddsWhere n (is_at row.0 column.0) words.old words.new }
{
    words[place(n, row, column.0 as usize / 64)] |= mask(column);
}

// Adds the bits of one row to another.
fn unite(words: &mut [u64], n: u16, row: TypeNo, source: TypeNo)
    requires square { IsSquare n words.old }
    requires row { IsNumber n row.0 }
    requires source { IsNumber n source.0 }
    requires apart { row.0 ≡ source.0 → ⊥ }
    ensures square { IsSquare n words.new }
    ensures united { AddsWhere n (λ a b. (row.0 == a) && has n words.old source.0 b)
        words.old words.new }
{
    for word in 0..width(n) {
        let more = words[place(n, source, word)];
        words[place(n, row, word)] |= more;
    }
}

// Adds to a row another type and all that this type's row has.
fn join_row(words: &mut [u64], n: u16, row: TypeNo, source: TypeNo)
    requires square { IsSquare n words.old }
    requires row { IsNumber n row.0 }
    requires source { IsNumber n source.0 }
    requires apart { row.0 ≡ source.0 → ⊥ }
    ensures square { IsSquare n words.new }
    ensures joined { AddsWhere n (joins_row n words.old row.0 source.0) words.old words.new }
{
    unite(words, n, row, source);
    add(words, n, row, source);
}

// Whether b is a, or row a has its bit.
fn reaches(words: &[u64], n: u16, a: TypeNo, b: TypeNo) -> bool
    requires square { IsSquare n words.now }
    requires a { IsNumber n a.0 }
    requires b { IsNumber n b.0 }
    ensures { result ≡ reaches n words.now a.0 b.0 }
{
    a.0 == b.0 || has(words, n, a, b)
}

// Whether a row is still to be joined: the mirror's row reaches it, and it doesn't have the source.
// A row that has the source has all that the source's row has.
fn is_to_join(
    words: &[u64],
    mirror: &[u64],
    n: u16,
    first: TypeNo,
    row: TypeNo,
    source: TypeNo,
) -> bool
    requires square { IsSquare n words.now }
    requires mirror_square { IsSquare n mirror.now }
    requires first { IsNumber n first.0 }
    requires row { IsNumber n row.0 }
    requires source { IsNumber n source.0 }
    ensures { result ≡ reaches n mirror.now first.0 row.0 && not (has n words.now row.0 source.0) }
{
    reaches(mirror, n, first, row) && !has(words, n, row, source)
}

/// A number from this one on, before which a row has none of them: the least that it has in this
/// one's word, or else the word's last.
pub fn skip(words: &[u64], n: u16, row: TypeNo, from: u16) -> u16
    requires square { IsSquare n words.now }
    requires row { IsNumber n row.0 }
    requires from { from ≤ n }
    ensures onward { from ≤ result }
    ensures in_word { result ≤ from / 64 * 64 + 63 }
    ensures none { HasNone n words.now row.0 from result }
{
    let rest = words[place(n, row, from as usize / 64)] >> (from % 64);
    if rest == 0 {
        from / 64 * 64 + 63
    } else {
        from + rest.trailing_zeros() as u16
    }
}

// A row from this one on, before which the mirror's row of the first reaches none of them.
fn next_row(mirror: &[u64], n: u16, first: TypeNo, from: u16) -> u16
    requires mirror_square { IsSquare n mirror.now }
    requires first { IsNumber n first.0 }
    requires from { from ≤ n }
    ensures onward { from ≤ result }
    ensures in_word { result ≤ from / 64 * 64 + 63 }
    ensures none { ReachesNone n mirror.now first.0 from result }
{
    let next = skip(mirror, n, first, from);
    if first.0 < from {
        next
    } else if first.0 < next {
        first.0
    } else {
        next
    }
}

// Joins the row of a type, and of each type that the mirror's row of it has, with the source.
fn join_rows(words: &mut [u64], mirror: &[u64], n: u16, first: TypeNo, source: TypeNo)
    requires square { IsSquare n words.old }
    requires mirror_square { IsSquare n mirror.now }
    requires types { n ≤ MOST_TYPES }
    requires first { IsNumber n first.0 }
    requires source { IsNumber n source.0 }
    requires apart { reaches n mirror.now first.0 source.0 ≡ false }
    requires transitive { IsTransitive n words.old }
    ensures square { IsSquare n words.new }
    ensures joined { AddsWhere n (joins n mirror.now first.0 words.old source.0)
        words.old words.new }
{
    let mut row = 1;
    while row <= n {
        let next = next_row(mirror, n, first, row);
        if next > n {
            return;
        }
        if is_to_join(words, mirror, n, first, TypeNo(next), source) {
            join_row(words, n, TypeNo(next), source);
        }
        row = next + 1;
    }
}

/// Puts the parent and all before it before the child and all after it.
pub fn link(before: &mut [u64], after: &mut [u64], n: u16, parent: TypeNo, child: TypeNo)
    requires square { IsSquare n before.old }
    requires mirror_square { IsSquare n after.old }
    requires types { n ≤ MOST_TYPES }
    requires parent { IsNumber n parent.0 }
    requires child { IsNumber n child.0 }
    requires apart { parent.0 ≡ child.0 → ⊥ }
    requires orderly { has n before.old child.0 parent.0 ≡ false }
    requires transitive { IsTransitive n before.old }
    requires mirrors { AreMirrors n before.old after.old }
    ensures square { IsSquare n before.new }
    ensures mirror_square { IsSquare n after.new }
    ensures linked { AddsWhere n (links n before.old parent.0 child.0) before.old before.new }
    ensures mirrors { AreMirrors n before.new after.new }
{
    if !has(before, n, parent, child) {
        join_rows(before, after, n, parent, child);
        join_rows(after, before, n, child, parent);
    }
}
