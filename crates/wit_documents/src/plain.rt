//! Texts in a message of SARIF: what would be read as a link, or as a word to be filled in, stands as itself.

ghost use Rattle.std.specs.Prelude.{◌≡◌, ◌++◌, string_bytes, flat_map, OnOk};
ghost use Rattle.std.specs.Str.{chars};
ghost use Rattle.wit_documents.specs.Escapes.{plain_char};

use std::alloc::AllocError;

/// Adds the text: brackets and `\` after a `\`, braces twice.
///
/// # Errors
/// Want of memory alone.
pub fn put_plain(to: &mut String, text: &str) -> Result<(), AllocError>
    ensures { OnOk result (string_bytes to.new
        ≡ string_bytes to.old ++ flat_map plain_char (chars text.now)) }
{
    for each in text.chars() {
        put_char(to, each)?;
    }
    Ok(())
}

fn put_char(to: &mut String, each: char) -> Result<(), AllocError>
    ensures { OnOk result (string_bytes to.new ≡ string_bytes to.old ++ plain_char each) }
{
    match each {
        '[' | ']' | '\\' => to.push('\\')?,
        '{' | '}' => to.push(each)?,
        _ => {}
    }
    to.push(each)
}
