//! Lists of a JSON report that are read item by item, so that no more than an item is a tree.

ghost use Rattle.std.specs.Prelude.{◌≡◌, length};

use crate::outline::Outline;
use json::{Error, MAX_DEPTH, Reader, Scratch, Value};
use std::alloc::{AllocError, Global};

/// Where a value stands in a text: from there on it begins, and it ends before the next one begins.
#[derive(Clone, Copy, Drop)]
pub(crate) struct Span {
    /// Its first byte.
    pub(crate) start: usize,
    /// The first byte of what follows it.
    pub(crate) end: usize,
}

/// None.
pub(crate) fn no_spans<'s>() -> &'s [Span] {
    &[]
}

/// The items of an array.
#[derive(Clone, Copy, Drop)]
pub struct Items<'a> {
    text: &'a str,
    spans: &'a [Span],
}

impl<'a> Items<'a> {
    pub(crate) fn new(text: &'a str, spans: &'a [Span]) -> Items<'a> {
        Items { text, spans }
    }

    /// How many there are.
    pub fn len(self) -> usize
        ensures { result ≡ length self.entry.spans.now }
    {
        self.spans.len()
    }

    /// Whether there is none.
    pub fn is_empty(self) -> bool {
        self.spans.is_empty()
    }

    /// The item of that number, from 0 on, as a tree; `null` where there is none.
    ///
    /// # Errors
    /// Want of memory alone, as of the next one.
    pub fn read(
        self,
        alloc: Global,
        number: usize,
        scratch: &'a mut Scratch,
    ) -> Result<Value<'a>, AllocError> {
        let mut reader = Reader::new(self.text_of(number), scratch)?;
        match Value::read(alloc, &mut reader, MAX_DEPTH) {
            Ok(value) => Ok(value),
            Err(Error::OutOfMemory) => Err(AllocError),
            Err(_) => Ok(Value::Null),
        }
    }

    /// The item of that number, of whose lists no tree is made. One without members where it is no object.
    pub fn outline(self, alloc: Global, number: usize) -> Result<Outline<'a>, AllocError> {
        let mut scratch = Scratch::new(alloc);
        Outline::of(alloc, self.text_of(number), &mut scratch)
    }

    fn text_of(self, number: usize) -> &'a str {
        if number >= self.spans.len() {
            return "";
        }
        let span = self.spans[number];
        match self.text.get(span.start..span.end) {
            Some(text) => text,
            None => "",
        }
    }
}
