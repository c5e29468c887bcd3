//! What calls tell.

ghost use Rattle.std.specs.Prelude.{◌≡◌, ◌+◌, ◌-◌, ◌<◌, ◌^◌, IfOk, OnErr};
ghost use Rattle.std.specs.Option.{option_copied};
ghost use Rattle.wit_model.specs.Trace.Output.{Asserts, Warns, calls, said, reply_text};
ghost use Rattle.wit_lines.specs.LineCalls.{NumbersFile};
ghost use Rattle.wit_lines.specs.Replays.{Remarks};

use std::alloc::{AllocError, Global};
use wit_core::Verifier;
use wit_grammar::LineError;
use wit_model::{Fault, FileNo, LockAssert, LockNo, Reply, SeatNo, WarnFlags};
use wit_report::{assert_text, report_text, warned_text};

/// The text of a reply.
///
/// # Errors
/// Want of memory alone.
#[cold]
#[inline(never)]
pub fn reply_text(alloc: Global, verifier: &Verifier, reply: &Reply) -> Result<Vec<u8>, AllocError>
    ensures { IfOk result (λ text. text.items ≡ reply_text verifier.now reply.now) }
{
    match report_text(alloc, verifier, reply) {
        Ok(text) => Ok(text.into_bytes()),
        // It fails for want of memory alone.
        Err(_) => Err(AllocError),
    }
}

/// The text of a reply that is to be told.
///
/// # Errors
/// Want of memory alone.
#[inline(always)]
pub fn text_of_reply(
    alloc: Global,
    verifier: &Verifier,
    reply: Reply,
) -> Result<Vec<u8>, AllocError>
    ensures { IfOk result (λ text. text.items ≡ reply_text verifier.now reply) }
{
    match reply {
        // Nothing else has a text.
        Reply::Reversal(_) | Reply::Duplicate(_) | Reply::Exhausted => {
            reply_text(alloc, verifier, &reply)
        }
        _ => Ok(Vec::new(alloc)),
    }
}

/// A failed assertion or a warning is counted; one that says nothing isn't.
///
/// # Errors
/// That of the text.
pub fn remark(remarks: &mut u64, text: Result<Vec<u8>, LineError>) -> Result<Vec<u8>, LineError>
    requires { remarks.old < 2 ^ 64 - 1 }
    ensures same { result ≡ text }
    ensures counted { IfOk text (λ t. remarks.new ≡ remarks.old + said t.items) }
    ensures refused { OnErr text (remarks.new ≡ remarks.old) }
{
    let text = text?;
    if !text.is_empty() {
        *remarks += 1;
    }
    Ok(text)
}

/// What an assertion comes to, in text.
///
/// # Errors
/// `Bad` where the call is refused; `Memory`.
pub fn assertion(
    alloc: Global,
    verifier: &Verifier,
    seat: SeatNo,
    lock: LockNo,
    asserted: LockAssert,
) -> Result<Vec<u8>, LineError>
    ensures { Remarks verifier.now
        (λ n. calls verifier.now n (Asserts seat.0 lock asserted)) result }
{
    let answer = verifier.assert_lock(seat, lock, asserted)?;
    Ok(assert_text(alloc, verifier, lock, answer)?.into_bytes())
}

/// The locks that a seat is warned of, in text.
///
/// # Errors
/// `Bad` where the call is refused; `Memory`.
pub fn warning(
    alloc: Global,
    verifier: &Verifier,
    seat: SeatNo,
    lock: Option<LockNo>,
    flags: WarnFlags,
) -> Result<Vec<u8>, LineError>
    ensures { Remarks verifier.now (λ n. calls verifier.now n (Warns seat.0 lock flags)) result }
{
    if verifier.warn(seat, lock, flags)? == 0 {
        return Ok(Vec::new(alloc));
    }
    Ok(warned_text(alloc, verifier, seat, lock, flags)?.into_bytes())
}

/// The number of the file that a line names; of one that names none, no file's.
///
/// # Errors
/// Those of `Verifier::file`.
#[inline(always)]
pub fn number_of(verifier: &mut Verifier, file: Option<&str>) -> Result<FileNo, Fault>
    ensures { NumbersFile verifier.old (option_copied file.entry) result verifier.new }
{
    match file {
        Some(file) => verifier.file(file),
        None => Ok(FileNo(0)),
    }
}
