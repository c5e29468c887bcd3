//! The JSON report that a document is made of.

ghost use Rattle.std.specs.Prelude.{◌≡◌, IfOk, IsSome, Err};
ghost use Rattle.std.specs.Io.KnownBytes.{Keeps};
ghost use Rattle.json.specs.Json.{document};
ghost use Rattle.wit_documents.specs.declared.document.DocumentError.TheVariants as DocumentError;

use crate::outline::Outline;
use crate::sarif::sarif_log;
use json::{Scratch, is_valid};
use std::alloc::{AllocError, Global};
use std::io::Write;

/// Why there is no document.
#[derive(Clone, Copy, Debug, Drop, PartialEq, Eq)]
pub enum DocumentError {
    /// The text is no JSON, or no JSON report of `record`.
    NoReport,
    /// A growth was refused.
    Memory,
    /// The document can't be written.
    Write,
}

impl From<AllocError> for DocumentError {
    ghost use Rattle.std.specs.Prelude.{◌≡◌};
    ghost use Rattle.wit_documents.specs.declared.document.DocumentError.TheVariants.{Memory};

    ghost from_gives = { λ _ e. e ≡ Memory };

    fn from(_refused: AllocError) -> DocumentError {
        DocumentError::Memory
    }
}

/// The report that the text is. Its lists are read item by item.
///
/// # Errors
/// `NoReport` where it is no JSON, or hasn't the format of a report, or is of another version than 1; `Memory` where a growth was refused.
pub fn report_of<'a>(alloc: Global, bytes: &'a [u8]) -> Result<Outline<'a>, DocumentError>
    ensures { IfOk result
        (λ findings. (findings.text.now ≡ bytes.now) × IsSome (document bytes.now)) }
{
    let Ok(text) = std::str::from_utf8(bytes) else {
        return Err(DocumentError::NoReport);
    };
    let mut scratch = Scratch::new(alloc);
    if !is_valid(text, &mut scratch)? {
        return Err(DocumentError::NoReport);
    }
    let findings = Outline::of(alloc, text, &mut scratch)?;
    if findings.words("format") == "record-findings" && is_known(findings.digits("version")) {
        Ok(findings)
    } else {
        Err(DocumentError::NoReport)
    }
}

// A later version may have other members, or mean others by them.
fn is_known(version: Option<&str>) -> bool {
    match version {
        Some(version) => version == "1",
        None => true,
    }
}

/// Writes the log of SARIF that tells what the report tells, with a line feed at its end.
///
/// # Errors
/// `Memory` where a growth was refused: then nothing was written. `Write` where it can't be written.
pub fn write_sarif<W: Write>(
    alloc: Global,
    findings: &Outline<'_>,
    output: &mut W,
) -> Result<(), DocumentError>
    ensures { result ≡ Err DocumentError.Memory
        → Keeps (W.contents output.old) (W.contents output.new) }
{
    let log = sarif_log(alloc, findings)?;
    log.write(output)
}
