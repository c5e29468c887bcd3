//! Objects of a JSON report of which no tree is made: their texts and numbers are kept, and of each list where its
//! items stand.

ghost use Rattle.std.specs.Prelude.{◌≡◌, ◌≤◌, length, IfOk};

use crate::items::{Items, Span, no_spans};
use json::{MAX_DEPTH, Reader, Scratch, Token, Value};
use std::alloc::{AllocError, Global};

/// An object over its own text.
#[derive(Drop)]
pub struct Outline<'a> {
    text: &'a str,
    members: Vec<Member>,
}

#[derive(Drop)]
struct Member {
    name: String,
    held: Held,
}

// What a member is.
#[derive(Drop)]
enum Held {
    Text(String),
    Number(String),
    Truth(bool),
    List(Vec<Span>),
    Other,
}

impl<'a> Outline<'a> {
    /// The object with which the text begins. One without members where it begins with none.
    ///
    /// # Errors
    /// Want of memory alone.
    pub(crate) fn of(
        alloc: Global,
        text: &'a str,
        scratch: &mut Scratch,
    ) -> Result<Outline<'a>, AllocError>
        ensures { IfOk result (λ outline. outline.text.now ≡ text.now) }
    {
        let mut members = Vec::new(alloc);
        let mut reader = Reader::new(text, scratch)?;
        if let Some(Token::BeginObject) = reader.next() {
            read_members(alloc, &mut reader, &mut members)?;
        }
        Ok(Outline { text, members })
    }

    /// A text.
    pub fn text(&self, name: &str) -> Option<&str> {
        match self.member(name) {
            Some(Held::Text(text)) => Some(text.as_str()),
            _ => None,
        }
    }

    /// A text, empty where there is none.
    pub fn words(&self, name: &str) -> &str {
        match self.text(name) {
            Some(words) => words,
            None => "",
        }
    }

    /// The digits of a number.
    pub fn digits(&self, name: &str) -> Option<&str> {
        match self.member(name) {
            Some(Held::Number(digits)) => Some(digits.as_str()),
            _ => None,
        }
    }

    /// A number, 0 where there is none.
    pub fn count(&self, name: &str) -> u64 {
        match self.digits(name) {
            Some(digits) => number_of(&Value::Number(digits)),
            None => 0,
        }
    }

    /// Whether it is true.
    pub fn truth(&self, name: &str) -> bool {
        match self.member(name) {
            Some(Held::Truth(truth)) => *truth,
            _ => false,
        }
    }

    /// The items of an array.
    pub fn list(&self, name: &str) -> Items<'_> {
        match self.member(name) {
            Some(Held::List(spans)) => Items::new(self.text, spans.as_slice()),
            _ => Items::new("", no_spans()),
        }
    }

    // The last member of that name.
    fn member(&self, name: &str) -> Option<&Held> {
        for member in self.members.iter().rev() {
            if member.name.as_str() == name {
                return Some(&member.held);
            }
        }
        None
    }
}

fn number_of(value: &Value<'_>) -> u64 {
    match value.as_u64() {
        Some(number) => number,
        None => 0,
    }
}

fn read_members(
    alloc: Global,
    reader: &mut Reader<'_>,
    members: &mut Vec<Member>,
) -> Result<(), AllocError>
    ensures { length reader.new ≤ length reader.old }
{
    while let Ok(Some(key)) = reader.next_key() {
        let name = String::from_str(alloc, key)?;
        let held = read_held(alloc, reader)?;
        members.push(Member { name, held })?;
    }
    Ok(())
}

fn read_held(alloc: Global, reader: &mut Reader<'_>) -> Result<Held, AllocError>
    ensures { length reader.new ≤ length reader.old }
{
    match reader.next() {
        Some(Token::String(text)) => Ok(Held::Text(String::from_str(alloc, text)?)),
        Some(Token::Number(digits)) => Ok(Held::Number(String::from_str(alloc, digits)?)),
        Some(Token::Bool(truth)) => Ok(Held::Truth(truth)),
        Some(Token::BeginArray) => Ok(Held::List(read_spans(alloc, reader)?)),
        Some(Token::BeginObject) => {
            pass_members(reader);
            Ok(Held::Other)
        }
        _ => Ok(Held::Other),
    }
}

// Where the items of an array stand, which stands open.
fn read_spans(alloc: Global, reader: &mut Reader<'_>) -> Result<Vec<Span>, AllocError>
    ensures { length reader.new ≤ length reader.old }
{
    let mut spans = Vec::new(alloc);
    while !reader.take_end_array() {
        let start = reader.offset();
        if reader.skip_value(MAX_DEPTH).is_err() {
            return Ok(spans);
        }
        spans.push(Span {
            start,
            end: reader.offset(),
        })?;
    }
    Ok(spans)
}

// Passes the members of an object that stands open.
fn pass_members(reader: &mut Reader<'_>)
    ensures { length reader.new ≤ length reader.old }
{
    while let Ok(Some(_)) = reader.next_key() {
        if reader.skip_value(MAX_DEPTH).is_err() {
            return;
        }
    }
}
