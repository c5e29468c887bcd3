//! The sources of a report, whose lines are read where they are shown.

use json::Scratch;
use std::alloc::{AllocError, Global};
use wit_documents::reading::count;
use wit_documents::{Items, Outline};

/// A source.
#[derive(Drop)]
pub(crate) struct Source<'a> {
    parts: Outline<'a>,
    // Those of its lines.
    numbers: Vec<u64>,
}

impl<'a> Source<'a> {
    /// Its name.
    pub(crate) fn file(&self) -> &str {
        self.parts.words("file")
    }

    /// Whether it is newer than the program.
    pub(crate) fn is_newer(&self) -> bool {
        self.parts.truth("newer")
    }

    /// The lines of it that are here.
    pub(crate) fn lines(&self) -> Items<'_> {
        self.parts.list("lines")
    }

    /// The numbers of these.
    pub(crate) fn numbers(&self) -> &[u64] {
        self.numbers.as_slice()
    }

    /// Which of these has that number: the first one.
    pub(crate) fn place_of(&self, line: u64) -> Option<usize> {
        let numbers = self.numbers.as_slice();
        for place in 0..numbers.len() {
            if numbers[place] == line {
                return Some(place);
            }
        }
        None
    }
}

/// The sources of the report.
///
/// # Errors
/// Want of memory alone, as of all that follow.
pub(crate) fn sources_of<'v>(
    alloc: Global,
    findings: &'v Outline<'_>,
) -> Result<Vec<Source<'v>>, AllocError> {
    let items = findings.list("sources");
    let mut sources = Vec::new(alloc);
    for number in 0..items.len() {
        let parts = items.outline(alloc, number)?;
        let numbers = numbers_of(alloc, parts.list("lines"))?;
        sources.push(Source { parts, numbers })?;
    }
    Ok(sources)
}

fn numbers_of(alloc: Global, lines: Items<'_>) -> Result<Vec<u64>, AllocError> {
    let mut scratch = Scratch::new(alloc);
    let mut numbers = Vec::with_capacity(alloc, lines.len())?;
    for number in 0..lines.len() {
        let line = lines.read(alloc, number, &mut scratch)?;
        numbers.push(count(&line, "line"))?;
    }
    Ok(numbers)
}

/// The source of that name: the first one.
pub(crate) fn source_of<'v, 'a>(sources: &'v [Source<'a>], file: &str) -> Option<&'v Source<'a>> {
    for each in sources {
        if each.file() == file {
            return Some(each);
        }
    }
    None
}
