//! Texts as a terminal shows them.

ghost use Rattle.std.specs.Prelude.{◌≡◌, ◌++◌, string_bytes, flat_map, OnOk};
ghost use Rattle.std.specs.Str.{chars};
ghost use Rattle.wit_text.specs.Shown.{is_hidden, shown_char};

use std::alloc::AllocError;

/// Adds the text so that it is nothing but a text: no control of a terminal, and nothing that turns the direction
/// of what is read. The controls below 32, but for a tab, and the one of 127 are shown by their pictures, the others
/// as U+FFFD.
///
/// # Errors
/// Want of memory alone.
pub fn put_shown(to: &mut String, text: &str) -> Result<(), AllocError>
    ensures { OnOk result (string_bytes to.new
        ≡ string_bytes to.old ++ flat_map shown_char (chars text.now)) }
{
    for each in text.chars() {
        put_char(to, each)?;
    }
    Ok(())
}

fn put_char(to: &mut String, each: char) -> Result<(), AllocError>
    ensures { OnOk result (string_bytes to.new ≡ string_bytes to.old ++ shown_char each) }
{
    let code = each as u32;
    if code == 9 {
        to.push('\t')
    } else if code < 32 {
        match char::from_u32(0x2400 + code) {
            Some(picture) => to.push(picture),
            None => to.push('\u{fffd}'),
        }
    } else if code == 0x7f {
        to.push('\u{2421}')
    } else if is_hidden(code) {
        to.push('\u{fffd}')
    } else {
        to.push(each)
    }
}

// Whether it is a control of a second kind, or turns the direction of a text.
fn is_hidden(code: u32) -> bool
    ensures { result ≡ is_hidden code }
{
    (0x80 <= code && code <= 0x9f)
        || code == 0x61c
        || (0x200e <= code && code <= 0x200f)
        || (0x2028 <= code && code <= 0x202e)
        || (0x2066 <= code && code <= 0x2069)
}
