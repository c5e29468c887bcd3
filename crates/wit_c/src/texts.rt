//! Texts that C gives.

ghost use Rattle.std.specs.Prelude.{◌≡◌};
ghost use Rattle.std.specs.Option.{option_copied};
ghost use Rattle.wit_c.specs.Texts.{name_in, file_name_in, type_name_in};

use wit_model::{FileName, Name};

/// A name: bytes that are none stand for the empty text, which is none either.
pub fn name_in(bytes: &[u8]) -> &str
    ensures { result.now ≡ name_in bytes.now }
{
    let Ok(text) = std::str::from_utf8(bytes) else {
        return "";
    };
    if Name::accepts(text) { text } else { "" }
}

/// The name of a type: no byte stands for none.
pub fn type_name_in(bytes: &[u8]) -> Option<&str>
    ensures { option_copied result ≡ type_name_in bytes.now }
{
    if bytes.is_empty() {
        return None;
    }
    Some(name_in(bytes))
}

/// The name of a file.
pub fn file_name_in(bytes: &[u8]) -> &str
    ensures { result.now ≡ file_name_in bytes.now }
{
    let Ok(text) = std::str::from_utf8(bytes) else {
        return "";
    };
    if FileName::accepts(text) { text } else { "" }
}
