//! What is known of a place, and of the lock that is used there.

use crate::reading::{digits, text, words};
use json::Value;

/// Whether the line of the place is known.
pub fn has_line(place: &Value<'_>) -> bool {
    text(place, "file").is_some()
}

/// Whether something is known of the place.
pub fn is_place(place: &Value<'_>) -> bool {
    has_line(place) || text(place, "object").is_some()
}

/// Whether it is one of code, whose line isn't known.
pub fn is_code(place: &Value<'_>) -> bool {
    digits(place, "offset").is_some()
}

/// The place as it is told.
pub fn place_name<'a>(place: &Value<'a>) -> &'a str {
    match text(place, "name") {
        Some(name) => name,
        None => words(place, "site"),
    }
}

/// The number of a lock in its type: what follows the type's name and `/` in the lock's.
pub fn lock_number<'n>(lock: &'n str, kind: &str) -> Option<&'n str> {
    if kind.is_empty() {
        return None;
    }
    let Some(rest) = lock.strip_prefix(kind) else {
        return None;
    };
    let Some(number) = rest.strip_prefix('/') else {
        return None;
    };
    if is_digits(number) {
        Some(number)
    } else {
        None
    }
}

fn is_digits(number: &str) -> bool {
    for byte in number.as_bytes() {
        if !byte.is_ascii_digit() {
            return false;
        }
    }
    !number.is_empty()
}
