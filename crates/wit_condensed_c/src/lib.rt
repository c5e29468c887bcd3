//! The sets of pairs for the recorder, which is written in C: each export is a call of
//! `wit_condensed` with a struct that C holds.
//!
//! An export of which C doesn't keep its part (`recorder/runtime/condensed.h`) isn't spoken of here. Each
//! other answers, whatever numbers it is given: none has a `requires`.
#![tactic(auto)]

ghost use Rattle.std.specs.Prelude.{ℕ, ◌≡◌, ◌≤◌, false, length, take, drop};
ghost use Rattle.wit_condensed.specs.Asking.{Answers, given_lines};
ghost use Rattle.wit_condensed.specs.Rows.{has_pair};

use wit_condensed::{Asked, Condensed, Line, Link};

/// Asks which lines a request is to be written by: `Condensed::ask`.
#[unsafe(no_mangle)]
pub extern "C" fn wit_condensed_ask(
    sets: &mut Condensed,
    links: &[Link],
    lock: u32,
    type_no: u16,
    waits: bool,
    lines: &mut [Line],
) -> usize
    ensures answers { Answers sets.old links.now (record { lock = lock; type_no = type_no }) waits
        (length lines.old) sets.new (take result lines.new) }
    ensures within { result ≤ length lines.old }
    ensures rest { drop result lines.new ≡ drop result lines.old }
{
    sets.ask(links, Asked { lock, type_no }, waits, lines)
}

/// The lines that it gives, while nothing changes yet: `Condensed::lines`.
#[unsafe(no_mangle)]
pub extern "C" fn wit_condensed_lines(
    sets: &Condensed,
    links: &[Link],
    lock: u32,
    type_no: u16,
    waits: bool,
    lines: &mut [Line],
) -> usize
    ensures given { take result lines.new ≡ given_lines sets.now links.now
        (record { lock = lock; type_no = type_no }) waits (length lines.old) }
    ensures within { result ≤ length lines.old }
    ensures rest { drop result lines.new ≡ drop result lines.old }
{
    sets.lines(links, Asked { lock, type_no }, waits, lines)
}

/// Forgets all pairs: `Condensed::forget`.
#[unsafe(no_mangle)]
pub extern "C" fn wit_condensed_forked(sets: &mut Condensed)
    ensures told { (a b : ℕ) → has_pair sets.new.told a b ≡ false }
    ensures alone { (a b : ℕ) → has_pair sets.new.alone a b ≡ false }
{
    sets.forget();
}
