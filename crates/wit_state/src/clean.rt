//! Whether a verifier's log is clean, in words.

ghost use Rattle.std.specs.Prelude.{◌≡◌, ◌++◌, string_bytes, IfOk, OnOk};
ghost use Rattle.wit_state.specs.Clean.{at_line, clean_text, hindrance_words, is_clean_story};

use crate::hindrances::{Hindrance, main_hindrance};
use std::alloc::{AllocError, Global};
use wit_core::Verifier;
use wit_recordings::is_clean;
use wit_report::put_number;

/// Whether the log is clean, and no pair of type names may be taken in either order: the premise of the
/// laws of `wit_model` and `wit_recordings`.
pub fn is_clean_so_far(verifier: &Verifier) -> bool
    ensures { result ≡ is_clean_story verifier.now }
{
    !verifier.blesses() && is_clean(verifier.profile(), verifier.history())
}

/// The line `clean`, exactly where the log is clean and no pair of type names may be taken in either
/// order. Else a line that tells what keeps it from that: `line N: WHY`, where the caller knows the
/// number of the line that does, or `reported`.
///
/// # Errors
/// Want of memory alone.
pub fn clean_text(alloc: Global, verifier: &Verifier, line: u64) -> Result<String, AllocError>
    ensures { IfOk result (λ text. string_bytes text ≡ clean_text verifier.now line) }
{
    let mut text = String::new(alloc);
    put_clean(&mut text, alloc, verifier, line)?;
    Ok(text)
}

/// Adds that line.
///
/// # Errors
/// Want of memory alone.
pub fn put_clean(
    text: &mut String,
    alloc: Global,
    verifier: &Verifier,
    line: u64,
) -> Result<(), AllocError>
    ensures { OnOk result (string_bytes text.new ≡ string_bytes text.old
        ++ clean_text verifier.now line) }
{
    if is_clean_so_far(verifier) {
        text.push_str("clean\n")
    } else {
        put_hindrance(text, alloc, main_hindrance(verifier), line)?;
        text.push('\n')
    }
}

fn put_hindrance(
    text: &mut String,
    alloc: Global,
    hindrance: Hindrance,
    line: u64,
) -> Result<(), AllocError>
    ensures { OnOk result (string_bytes text.new ≡ string_bytes text.old
        ++ hindrance_words hindrance line) }
{
    match hindrance {
        Hindrance::Blessed => {
            put_at_line(text, alloc, line, "either order of two types is allowed")
        }
        Hindrance::Doubled => {
            put_at_line(text, alloc, line, "a second lock of the type is allowed")
        }
        Hindrance::Giant => put_at_line(text, alloc, line, "the lock is Giant"),
        Hindrance::Untaught => put_at_line(text, alloc, line, "the request teaches no order"),
        Hindrance::Tried => put_at_line(text, alloc, line, "a lock was tried"),
        Hindrance::Unwatched => put_at_line(text, alloc, line, "less than everything is watched"),
        Hindrance::Reported => text.push_str("reported"),
    }
}

fn put_at_line(text: &mut String, alloc: Global, line: u64, words: &str) -> Result<(), AllocError>
    ensures { OnOk result (string_bytes text.new ≡ string_bytes text.old
        ++ at_line line words.now) }
{
    text.push_str("line ")?;
    put_number(text, alloc, line)?;
    text.push_str(": ")?;
    text.push_str(words)
}
