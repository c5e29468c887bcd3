//! Names and places, as they are written in a report.

ghost use Rattle.std.specs.Prelude.{◌≡◌, ◌++◌, string_bytes, OnOk};
ghost use Rattle.std.specs.Fmt.{decimal};
ghost use Rattle.wit_model.specs.Trace.Spelling.{quoted};
ghost use Rattle.wit_model.specs.Trace.Texts.{file_with, site_words};

use std::alloc::{AllocError, Global};
use wit_core::Verifier;
use wit_model::{FileNo, Site};

/// Adds a name between quotation marks.
///
/// # Errors
/// Want of memory alone.
pub fn put_quoted(text: &mut String, name: &str) -> Result<(), AllocError>
    ensures { OnOk result (string_bytes text.new ≡ string_bytes text.old ++ quoted name.now) }
{
    text.push('"')?;
    text.push_str(name)?;
    text.push('"')
}

/// Adds a place as `FILE:LINE`; the file is empty for a number that was never given.
///
/// # Errors
/// Want of memory alone.
pub fn put_site(
    text: &mut String,
    alloc: Global,
    verifier: &Verifier,
    site: Site,
) -> Result<(), AllocError>
    ensures { OnOk result (string_bytes text.new ≡ string_bytes text.old
        ++ site_words verifier.now.files site) }
{
    text.push_str(file_words(verifier, site.file))?;
    text.push(':')?;
    put_number(text, alloc, site.line as u64)
}

/// Adds a number in decimal digits.
///
/// # Errors
/// Want of memory alone.
pub fn put_number(text: &mut String, alloc: Global, number: u64) -> Result<(), AllocError>
    ensures { OnOk result (string_bytes text.new ≡ string_bytes text.old ++ decimal number) }
{
    let digits = number.to_string(alloc)?;
    text.push_str(&digits)
}

fn file_words(verifier: &Verifier, file: FileNo) -> &str
    ensures { result.now ≡ file_with verifier.now.files file.0 }
{
    match verifier.file_name(file) {
        Some(name) => name,
        None => "",
    }
}
