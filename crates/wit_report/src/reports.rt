//! The text of a reply.

ghost use Rattle.std.specs.Prelude.{◌≡◌, string_bytes, IfOk, IfErr};
ghost use Rattle.wit_model.specs.Trace.Output.{reply_text};
ghost use Rattle.wit_report.specs.Wants.{WantsMemory};

use crate::duplicate::duplicate_text;
use crate::reversal::reversal_text;
use std::alloc::Global;
use wit_core::Verifier;
use wit_model::{Fault, Reply};

/// The text of a reply's report, as things stand once the reply was given; empty where it reports
/// nothing. A number that was never given stands for an empty name, and a lock under it for a sleep
/// mutex.
///
/// # Errors
/// `OutOfMemory` alone, and only where the text isn't empty.
#[inline(always)]
pub fn report_text(alloc: Global, verifier: &Verifier, reply: &Reply) -> Result<String, Fault>
    ensures ok { IfOk result (λ text. string_bytes text ≡ reply_text verifier.now reply.now) }
    ensures err { IfErr result (WantsMemory (reply_text verifier.now reply.now)) }
{
    match reply {
        Reply::Reversal(conflict) => Ok(reversal_text(alloc, verifier, conflict.get())?),
        Reply::Duplicate(doubling) => Ok(duplicate_text(alloc, verifier, doubling.get())?),
        Reply::Exhausted => Ok(String::from_str(alloc, "witness exhausted\n")?),
        _ => Ok(String::new(alloc)),
    }
}
