//! Paths within URIs.

ghost use Rattle.std.specs.Prelude.{◌≡◌, ◌<◌, ◌++◌, string_bytes, flat_map, OnOk};
ghost use Rattle.wit_documents.specs.Escapes.{stands_as_itself, upper_digit, uri_byte};

use std::alloc::AllocError;

/// Adds the path: what isn't a letter, a digit or one of `-._~/` stands as `%XX`, byte by byte.
///
/// # Errors
/// Want of memory alone.
pub fn put_uri(to: &mut String, path: &str) -> Result<(), AllocError>
    ensures { OnOk result (string_bytes to.new
        ≡ string_bytes to.old ++ flat_map uri_byte path.now) }
{
    for byte in path.as_bytes() {
        put_byte(to, *byte)?;
    }
    Ok(())
}

fn put_byte(to: &mut String, byte: u8) -> Result<(), AllocError>
    ensures { OnOk result (string_bytes to.new ≡ string_bytes to.old ++ uri_byte byte) }
{
    if stands_as_itself(byte) {
        return to.push(byte as char);
    }
    to.push('%')?;
    to.push(digit(byte / 16))?;
    to.push(digit(byte % 16))
}

fn stands_as_itself(byte: u8) -> bool
    ensures { result ≡ stands_as_itself byte }
{
    byte.is_ascii_alphanumeric()
        || byte == b'-'
        || byte == b'.'
        || byte == b'_'
        || byte == b'~'
        || byte == b'/'
}

fn digit(value: u8) -> char
    requires { value < 16 }
    ensures { result ≡ upper_digit value }
{
    if value < 10 {
        (48 + value) as char
    } else {
        (55 + value) as char
    }
}
