//! The text of a bad line.

ghost use Rattle.std.specs.Prelude.{◌≡◌, string_bytes, IfOk};
ghost use Rattle.wit_model.specs.Trace.Output.{cause_text, bad_text};

use std::alloc::{AllocError, Global};
use wit_model::Cause;

/// The text of a bad line, by its number from 1.
///
/// # Errors
/// Want of memory alone.
pub fn bad_text(alloc: Global, number: u64, cause: Cause) -> Result<String, AllocError>
    ensures { IfOk result (λ text. string_bytes text ≡ bad_text number cause) }
{
    let mut text = String::from_str(alloc, "line ")?;
    let digits = number.to_string(alloc)?;
    text.push_str(&digits)?;
    text.push_str(": ")?;
    text.push_str(cause_words(cause))?;
    text.push('\n')?;
    Ok(text)
}

fn cause_words(cause: Cause) -> &'static str
    ensures { result.now ≡ cause_text cause }
{
    match cause {
        Cause::Long => "long",
        Cause::Cut => "cut",
        Cause::Syntax => "syntax",
        Cause::Version => "version",
        Cause::Limit => "limit",
        Cause::Fault(fault) => fault.text(),
    }
}
