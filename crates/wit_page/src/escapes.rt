//! Texts within an element or a quoted attribute of HTML.

ghost use Rattle.std.specs.Prelude.{◌≡◌, ◌<◌, ◌++◌, string_bytes, flat_map, OnOk};
ghost use Rattle.std.specs.Str.{chars};
ghost use Rattle.wit_page.specs.Escapes.{hex_digit, hex_front, hex_of, hex_pair, html_char};
ghost use Rattle.wit_page.specs.Escapes.{is_no_character, is_unseen, other_char};

use std::alloc::AllocError;

/// Adds the text so that it is nothing but a text. Controls are shown by their pictures. What changes the
/// direction of a text, or can't be seen, is shown by its number, `[U+202E]`: nothing is read otherwise than it
/// stands.
///
/// # Errors
/// Want of memory alone.
pub fn put_escaped(to: &mut String, text: &str) -> Result<(), AllocError>
    ensures { OnOk result (string_bytes to.new
        ≡ string_bytes to.old ++ flat_map html_char (chars text.now)) }
{
    for each in text.chars() {
        put_char(to, each)?;
    }
    Ok(())
}

fn put_char(to: &mut String, each: char) -> Result<(), AllocError>
    ensures { OnOk result (string_bytes to.new ≡ string_bytes to.old ++ html_char each) }
{
    match each {
        '&' => to.push_str("&amp;"),
        '<' => to.push_str("&lt;"),
        '>' => to.push_str("&gt;"),
        '"' => to.push_str("&quot;"),
        '\'' => to.push_str("&#39;"),
        '\t' => to.push('\t'),
        '\u{7f}' => to.push('\u{2421}'),
        _ => put_other(to, each),
    }
}

fn put_other(to: &mut String, each: char) -> Result<(), AllocError>
    ensures { OnOk result (string_bytes to.new ≡ string_bytes to.old ++ other_char each) }
{
    let code = each as u32;
    if code < 32 {
        match char::from_u32(0x2400 + code) {
            Some(picture) => to.push(picture),
            None => to.push('\u{fffd}'),
        }
    } else if is_no_character(code) {
        to.push('\u{fffd}')
    } else if is_unseen(code) {
        put_number(to, code)
    } else {
        to.push(each)
    }
}

// Whether it turns the direction of a text, or takes no room.
fn is_unseen(code: u32) -> bool
    ensures { result ≡ is_unseen code }
{
    code == 0xad
        || code == 0x61c
        || code == 0x180e
        || (0x200b <= code && code <= 0x200f)
        || (0x2028 <= code && code <= 0x202e)
        || (0x2060 <= code && code <= 0x206f)
        || code == 0xfeff
        || (0xe0000 <= code && code <= 0xe007f)
}

fn is_no_character(code: u32) -> bool
    ensures { result ≡ is_no_character code }
{
    (0x80 <= code && code <= 0x9f)
        || (0xfdd0 <= code && code <= 0xfdef)
        || code % 0x10000 == 0xfffe
        || code % 0x10000 == 0xffff
}

fn put_number(to: &mut String, code: u32) -> Result<(), AllocError>
    requires { code < 0x100000 }
    ensures { OnOk result (string_bytes to.new ≡ string_bytes to.old ++ hex_of code) }
{
    put_front(to, code)?;
    put_pair(to, code / 256 % 256)?;
    put_pair(to, code % 256)?;
    to.push(']')
}

// What stands before the last four digits.
fn put_front(to: &mut String, code: u32) -> Result<(), AllocError>
    requires { code < 0x100000 }
    ensures { OnOk result (string_bytes to.new ≡ string_bytes to.old ++ hex_front code) }
{
    to.push_str("[U+")?;
    if code < 0x10000 {
        return Ok(());
    }
    to.push(digit(code / 0x10000))
}

fn put_pair(to: &mut String, byte: u32) -> Result<(), AllocError>
    requires { byte < 256 }
    ensures { OnOk result (string_bytes to.new ≡ string_bytes to.old ++ hex_pair byte) }
{
    to.push(digit(byte / 16))?;
    to.push(digit(byte % 16))
}

fn digit(value: u32) -> char
    requires { value < 16 }
    ensures { result ≡ hex_digit value }
{
    if value < 10 {
        (48 + value as u8) as char
    } else {
        (55 + value as u8) as char
    }
}
