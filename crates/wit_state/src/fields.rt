//! The fields of a line.

ghost use Rattle.std.specs.Prelude.{◌≡◌, ◌++◌, string_bytes, OnOk};
ghost use Rattle.std.specs.Fmt.{decimal};
ghost use Rattle.wit_state.specs.State.{field};

use std::alloc::{AllocError, Global};
use wit_report::put_number;

/// Adds a field that is a text.
///
/// # Errors
/// Want of memory alone.
pub fn put_field(text: &mut String, words: &str) -> Result<(), AllocError>
    ensures { OnOk result (string_bytes text.new ≡ string_bytes text.old ++ field words.now) }
{
    text.push('\t')?;
    text.push_str(words)
}

/// Adds a field that is a number.
///
/// # Errors
/// Want of memory alone.
pub fn put_count(text: &mut String, alloc: Global, number: u64) -> Result<(), AllocError>
    ensures { OnOk result (string_bytes text.new ≡ string_bytes text.old
        ++ field (decimal number)) }
{
    text.push('\t')?;
    put_number(text, alloc, number)
}
