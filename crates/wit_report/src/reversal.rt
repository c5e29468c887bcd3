//! The text of a reversal.

ghost use Rattle.std.specs.Prelude.{◌≡◌, string_bytes, IfOk};
ghost use Rattle.wit_model.specs.declared.calls.Reply.TheVariants.{Reversal};
ghost use Rattle.wit_model.specs.Trace.Output.{reply_text};
ghost use Rattle.wit_model.specs.Trace.Texts.{heading_words};

use crate::locks::{put_locks, type_number};
use crate::orders::put_established;
use std::alloc::{AllocError, Global};
use wit_core::Verifier;
use wit_model::{Conflict, Heading};

/// The text of a reversal: its heading, its locks, and the path by which the order that it breaks
/// is established, where one is.
///
/// # Errors
/// Want of memory alone.
#[cold]
#[inline(never)]
pub fn reversal_text(
    alloc: Global,
    verifier: &Verifier,
    conflict: &Conflict,
) -> Result<String, AllocError>
    ensures { IfOk result (λ text. string_bytes text
        ≡ reply_text verifier.now (Reversal conflict.now)) }
{
    let mut text = String::from_str(alloc, heading_words(conflict.heading))?;
    text.push('\n')?;
    put_locks(&mut text, alloc, verifier, conflict)?;
    let asked = type_number(verifier, conflict.asked.lock);
    let held = type_number(verifier, conflict.held.lock);
    put_established(&mut text, alloc, verifier, asked, held)?;
    Ok(text)
}

fn heading_words(heading: Heading) -> &'static str
    ensures { result.now ≡ heading_words heading }
{
    match heading {
        Heading::Order => "lock order reversal:",
        Heading::Sleepable => "lock order reversal: (sleepable after non-sleepable)",
        Heading::Giant => "lock order reversal: (Giant after non-sleepable)",
    }
}
