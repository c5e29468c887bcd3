//! Documents of a JSON report.

ghost use Rattle.std.specs.Prelude.{◌≡◌, IfOk, IfSome};
ghost use Rattle.witness.specs.declared.program.Ended.TheVariants.{Exits};
ghost use Rattle.witness.specs.Program.{IsWrittenOrRefused};

use crate::command::Form;
use crate::program::Ended;
use std::alloc::Global;
use std::io::{ErrorKind, Read, Write};
use wit_documents::{DocumentError, Outline, report_of, write_sarif};
use wit_dot::{write_dot, write_pictures};
use wit_page::write_page;
use wit_stream::ReplayError;
use wit_text::write_text;
use wit_trace::{BAD_TRACE, NOTHING_REPORTED};

/// Writes the JSON report on the input in that form, and says with which status to exit: 3 where the
/// input is no such report. `notes` is told so, and nothing is written then.
///
/// # Errors
/// `Read` where the reader failed, `Write` where the writer failed or took no byte, `Memory` where a growth was
/// refused. What was written is then a beginning of the document.
pub fn write_document<R: Read + Drop, W: Write, N: Write>(
    alloc: Global,
    form: Form,
    input: R,
    output: &mut W,
    notes: &mut N,
) -> Result<Ended, ReplayError>
    ensures { IfOk result (IsWrittenOrRefused (R.remaining input)
        (W.contents output.old) (W.contents output.new)) }
{
    let text = read_whole(alloc, input)?;
    match report_of(alloc, text.as_slice()) {
        Ok(findings) => write_form(alloc, form, &findings, output),
        Err(DocumentError::NoReport) => {
            let _ = writeln!(notes, "witness: the input is no JSON report of record");
            Ok(Ended::Exits(BAD_TRACE))
        }
        Err(error) => Err(failure(error)),
    }
}

// All that the reader gives, in a room that has no more.
fn read_whole<R: Read + Drop>(alloc: Global, input: R) -> Result<Vec<u8>, ReplayError>
    ensures { IfOk result (λ text. IfSome (R.remaining input) (λ bytes. text.items ≡ bytes)) }
{
    let mut input = input;
    let mut text = Vec::new(alloc);
    match input.read_to_end(&mut text) {
        Ok(_) => {
            text.shrink_to_fit();
            Ok(text)
        }
        Err(error) => match error.kind() {
            ErrorKind::OutOfMemory => Err(ReplayError::Memory),
            _ => Err(ReplayError::Read),
        },
    }
}

fn write_form<W: Write>(
    alloc: Global,
    form: Form,
    findings: &Outline<'_>,
    output: &mut W,
) -> Result<Ended, ReplayError>
    ensures { IfOk result (λ ended. ended ≡ Exits 0) }
{
    let written = match form {
        Form::Html => write_page(alloc, findings, output),
        Form::Sarif => write_sarif(alloc, findings, output),
        Form::Text => write_text(alloc, findings, output),
        Form::Dot => write_dot(alloc, findings, output),
        Form::Pictures => write_pictures(alloc, findings, output),
    };
    match written {
        Ok(()) => Ok(Ended::Exits(NOTHING_REPORTED)),
        Err(error) => Err(failure(error)),
    }
}

// A report that was read is none that is refused, so that what is left is want of memory.
fn failure(error: DocumentError) -> ReplayError {
    match error {
        DocumentError::Write => ReplayError::Write,
        DocumentError::Memory | DocumentError::NoReport => ReplayError::Memory,
    }
}
