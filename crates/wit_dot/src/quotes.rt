//! Texts within quotes of dot, which reads entities of HTML there.

ghost use Rattle.std.specs.Prelude.{◌≡◌, ◌++◌, string_bytes, flat_map, OnOk};
ghost use Rattle.std.specs.Str.{chars};
ghost use Rattle.wit_dot.specs.Quotes.{quoted_char};

use std::alloc::AllocError;

/// Adds the text: quotes and `\` after a `\`, `&` as its entity. A control stands as U+FFFD.
///
/// # Errors
/// Want of memory alone.
pub fn put_quoted(to: &mut String, text: &str) -> Result<(), AllocError>
    ensures { OnOk result (string_bytes to.new
        ≡ string_bytes to.old ++ flat_map quoted_char (chars text.now)) }
{
    for each in text.chars() {
        put_char(to, each)?;
    }
    Ok(())
}

fn put_char(to: &mut String, each: char) -> Result<(), AllocError>
    ensures { OnOk result (string_bytes to.new ≡ string_bytes to.old ++ quoted_char each) }
{
    match each {
        '\\' => to.push_str("\\\\"),
        '"' => to.push_str("\\\""),
        '&' => to.push_str("&amp;"),
        '\u{0}'..='\u{1f}' | '\u{7f}' => to.push('\u{fffd}'),
        _ => to.push(each),
    }
}
