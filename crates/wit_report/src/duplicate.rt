//! The text of two locks of one type.

ghost use Rattle.std.specs.Prelude.{◌≡◌, string_bytes, IfOk};
ghost use Rattle.wit_model.specs.declared.calls.Reply.TheVariants.{Duplicate};
ghost use Rattle.wit_model.specs.Trace.Output.{reply_text};

use crate::locks::{put_lock, type_name};
use crate::pieces::put_quoted;
use std::alloc::{AllocError, Global};
use wit_core::Verifier;
use wit_model::Doubling;

/// The text of two locks of one type, under the heading of `witness_checkorder` (subr_witness.c).
///
/// # Errors
/// Want of memory alone.
#[cold]
#[inline(never)]
pub fn duplicate_text(
    alloc: Global,
    verifier: &Verifier,
    doubling: &Doubling,
) -> Result<String, AllocError>
    ensures { IfOk result (λ text. string_bytes text
        ≡ reply_text verifier.now (Duplicate doubling.now)) }
{
    let mut text = String::from_str(alloc, "acquiring duplicate lock of same type: ")?;
    put_quoted(&mut text, type_name(verifier, doubling.asked.lock))?;
    text.push('\n')?;
    put_lock(&mut text, alloc, verifier, "1st", doubling.last)?;
    put_lock(&mut text, alloc, verifier, "2nd", doubling.asked)?;
    Ok(text)
}
