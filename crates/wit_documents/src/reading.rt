//! Members of JSON objects, as they are read. What isn't there, or is no such thing, is as nothing.

use json::Value;

/// A text.
pub fn text<'a>(object: &Value<'a>, name: &str) -> Option<&'a str> {
    match object.get(name) {
        Some(member) => member.as_str(),
        None => None,
    }
}

/// A text, empty where there is none.
pub fn words<'a>(object: &Value<'a>, name: &str) -> &'a str {
    match text(object, name) {
        Some(words) => words,
        None => "",
    }
}

/// The digits of a number.
pub fn digits<'a>(object: &Value<'a>, name: &str) -> Option<&'a str> {
    match object.get(name) {
        Some(member) => member.as_number(),
        None => None,
    }
}

/// A number, 0 where there is none.
pub fn count(object: &Value<'_>, name: &str) -> u64 {
    match object.get(name) {
        Some(member) => match member.as_u64() {
            Some(number) => number,
            None => 0,
        },
        None => 0,
    }
}

/// Whether it is true.
pub fn truth(object: &Value<'_>, name: &str) -> bool {
    match object.get(name) {
        Some(member) => member.as_bool() == Some(true),
        None => false,
    }
}

/// An object.
pub fn member<'v, 'a>(object: &'v Value<'a>, name: &str) -> Option<&'v Value<'a>> {
    match object.get(name) {
        Some(member) => {
            if let Value::Object(_) = member {
                Some(member)
            } else {
                None
            }
        }
        None => None,
    }
}

/// The items of an array.
pub fn list<'v, 'a>(object: &'v Value<'a>, name: &str) -> &'v [Value<'a>] {
    match object.get(name) {
        Some(member) => items_of(member),
        None => no_items(),
    }
}

fn items_of<'v, 'a>(value: &'v Value<'a>) -> &'v [Value<'a>] {
    if let Value::Array(items) = value {
        items.as_slice()
    } else {
        no_items()
    }
}

/// None.
pub fn no_items<'v, 'a>() -> &'v [Value<'a>] {
    &[]
}

/// The item of that number, from 0 on.
pub fn item<'v, 'a>(items: &'v [Value<'a>], number: usize) -> Option<&'v Value<'a>> {
    if number < items.len() {
        Some(&items[number])
    } else {
        None
    }
}
