//! The text of a failed assertion.

ghost use Rattle.std.specs.Prelude.{◌≡◌, string_bytes, IfOk, IfErr};
ghost use Rattle.std.specs.Option.{option_copied};
ghost use Rattle.wit_model.specs.Rules.State.{typed_locks};
ghost use Rattle.wit_model.specs.Trace.Views.{answer_words, assert_text};
ghost use Rattle.wit_report.specs.Wants.{WantsMemory};

use crate::locks::lock_name;
use crate::pieces::put_quoted;
use std::alloc::Global;
use wit_core::Verifier;
use wit_model::{AssertAnswer, Fault, LockNo};

/// The text of an assertion about a lock that came to this answer: the panic of `witness_assert`
/// (subr_witness.c) in a line. Empty where it holds, or where nothing was looked at.
///
/// # Errors
/// `OutOfMemory` alone, and only where the text isn't empty.
pub fn assert_text(
    alloc: Global,
    verifier: &Verifier,
    lock: LockNo,
    answer: AssertAnswer,
) -> Result<String, Fault>
    ensures ok { IfOk result (λ text. string_bytes text
        ≡ assert_text (typed_locks verifier.now.start verifier.now.history) lock.0 answer) }
    ensures err { IfErr result (WantsMemory
        (assert_text (typed_locks verifier.now.start verifier.now.history) lock.0 answer)) }
{
    let Some(words) = answer_words(answer) else {
        return Ok(String::new(alloc));
    };
    let mut text = String::from_str(alloc, "assert ")?;
    put_quoted(&mut text, lock_name(verifier, lock))?;
    text.push_str(": ")?;
    text.push_str(words)?;
    text.push('\n')?;
    Ok(text)
}

// What it comes to, where it fails.
fn answer_words(answer: AssertAnswer) -> Option<&'static str>
    ensures { option_copied result ≡ answer_words answer }
{
    match answer {
        AssertAnswer::Holds | AssertAnswer::Skipped => None,
        AssertAnswer::Invalid => Some("Invalid lock assertion"),
        AssertAnswer::IsLocked => Some("locked"),
        AssertAnswer::IsNotLocked => Some("not locked"),
        AssertAnswer::IsNotExclusive => Some("not exclusively locked"),
        AssertAnswer::IsExclusive => Some("exclusively locked"),
        AssertAnswer::IsNotRecursed => Some("not recursed"),
        AssertAnswer::IsRecursed => Some("recursed"),
    }
}
