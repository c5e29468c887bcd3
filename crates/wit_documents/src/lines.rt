//! The lines of a report, each with what is known of its place.

use crate::reading::{count, item, list, member, no_items, text, words};
use json::Value;
use std::alloc::{AllocError, Global};

/// What a line is of.
#[derive(Clone, Copy, Debug, Drop, PartialEq, Eq)]
pub enum LineKind {
    /// Nothing that has a place.
    Plain,
    /// A lock that was held.
    Held,
    /// The lock that was asked for.
    Asked,
    /// A step of the established order.
    Step,
    /// What a thread waits for.
    Waits,
    /// What a thread holds.
    Holds,
}

/// A line of a report, after the first one.
#[derive(Clone, Copy, Drop)]
pub struct Line<'v, 'a> {
    /// What it is of.
    pub kind: LineKind,
    /// Its words, without the place.
    pub words: &'a str,
    /// Its number, from 1 on.
    pub number: usize,
    /// The place, the thread and the callers: an object of the report.
    pub place: Option<&'v Value<'a>>,
}

impl<'v, 'a> Line<'v, 'a> {
    /// Its seat, 0 where it has none.
    pub(crate) fn seat(&self) -> u64 {
        match self.place {
            Some(place) => count(place, "seat"),
            None => 0,
        }
    }

    /// Its thread.
    pub(crate) fn thread(&self) -> Option<&'v Value<'a>> {
        match self.place {
            Some(place) => member(place, "thread"),
            None => None,
        }
    }

    /// The number of its thread, 0 where that isn't known.
    pub(crate) fn thread_number(&self) -> u64 {
        match self.thread() {
            Some(thread) => count(thread, "number"),
            None => 0,
        }
    }

    /// The stack there, innermost function first.
    pub(crate) fn callers(&self) -> &'v [Value<'a>] {
        match self.place {
            Some(place) => list(place, "callers"),
            None => no_items(),
        }
    }

    /// The function there.
    pub(crate) fn function(&self) -> Option<&'a str> {
        match item(self.callers(), 0) {
            Some(frame) => text(frame, "function"),
            None => None,
        }
    }

    /// Whether it is of a lock of a reversal or of two locks of one type.
    pub(crate) fn is_lock(&self) -> bool {
        match self.kind {
            LineKind::Held | LineKind::Asked => true,
            _ => false,
        }
    }

    /// Whether it is of a thread that waits.
    pub(crate) fn is_of_waits(&self) -> bool {
        match self.kind {
            LineKind::Waits | LineKind::Holds => true,
            _ => false,
        }
    }
}

// How many lines stood before in each list of the report.
#[derive(Clone, Copy, Drop)]
struct Passed {
    held: usize,
    steps: usize,
    waits: usize,
}

/// The lines after the first one, in their order. Where the report names a place that it hasn't, the
/// line is as one without.
///
/// # Errors
/// Want of memory alone.
pub fn lines_of<'v, 'a>(
    alloc: Global,
    report: &'v Value<'a>,
) -> Result<Vec<Line<'v, 'a>>, AllocError> {
    let mut lines = Vec::new(alloc);
    let mut passed = Passed {
        held: 0,
        steps: 0,
        waits: 0,
    };
    let told = list(report, "lines");
    for number in 1..told.len() {
        let line = line_of(report, &told[number], number, &mut passed);
        lines.push(line)?;
    }
    Ok(lines)
}

fn line_of<'v, 'a>(
    report: &'v Value<'a>,
    told: &'v Value<'a>,
    number: usize,
    passed: &mut Passed,
) -> Line<'v, 'a> {
    let (kind, place) = place_of(report, words(told, "of"), passed);
    Line {
        kind,
        words: words(told, "words"),
        number,
        place,
    }
}

fn place_of<'v, 'a>(
    report: &'v Value<'a>,
    of: &str,
    passed: &mut Passed,
) -> (LineKind, Option<&'v Value<'a>>) {
    if of == "held" {
        (LineKind::Held, next_of(list(report, of), &mut passed.held))
    } else if of == "asked" {
        (LineKind::Asked, member(report, of))
    } else if of == "established" {
        (LineKind::Step, next_of(list(report, of), &mut passed.steps))
    } else if of == "waits" {
        wait_of(next_of(list(report, of), &mut passed.waits))
    } else if of == "error" {
        (LineKind::Holds, member(report, of))
    } else {
        (LineKind::Plain, None)
    }
}

fn wait_of<'v, 'a>(wait: Option<&'v Value<'a>>) -> (LineKind, Option<&'v Value<'a>>) {
    match wait {
        Some(place) => {
            if words(place, "does") == "waits" {
                (LineKind::Waits, wait)
            } else {
                (LineKind::Holds, wait)
            }
        }
        None => (LineKind::Plain, None),
    }
}

fn next_of<'v, 'a>(items: &'v [Value<'a>], passed: &mut usize) -> Option<&'v Value<'a>> {
    let number = *passed;
    if number < items.len() {
        *passed = number + 1;
    }
    item(items, number)
}
