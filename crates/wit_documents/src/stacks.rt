//! The stacks of a report's lines, as SARIF has them.

use crate::lines::Line;
use crate::locations::{Said, Sources, put_location, put_message};
use crate::members::{begin, close, close_list, open, open_list, put_number};
use crate::reading::{digits, text, words};
use json::{Pretty, Value};
use std::alloc::{AllocError, Global};

/// The stack of each line that has one. Stacks are a set: a line that is told twice has one.
///
/// # Errors
/// Want of memory alone.
pub(crate) fn put_stacks(
    out: &mut Pretty,
    alloc: Global,
    sources: &Sources<'_, '_>,
    lines: &[Line<'_, '_>],
) -> Result<(), AllocError> {
    open_list(out, "stacks")?;
    for number in 0..lines.len() {
        let line = &lines[number];
        if !line.callers().is_empty() && !is_among(&lines[..number], line) {
            put_stack(out, alloc, sources, line)?;
        }
    }
    close_list(out)
}

fn is_among(lines: &[Line<'_, '_>], line: &Line<'_, '_>) -> bool {
    for each in lines {
        if each.words == line.words && are_equal(each.callers(), line.callers()) {
            return true;
        }
    }
    false
}

fn are_equal(one: &[Value<'_>], other: &[Value<'_>]) -> bool {
    if one.len() != other.len() {
        return false;
    }
    for number in 0..one.len() {
        let (left, right) = (&one[number], &other[number]);
        if words(left, "function") != words(right, "function")
            || words(left, "site") != words(right, "site")
        {
            return false;
        }
    }
    true
}

fn put_stack(
    out: &mut Pretty,
    alloc: Global,
    sources: &Sources<'_, '_>,
    line: &Line<'_, '_>,
) -> Result<(), AllocError> {
    let thread = match line.thread() {
        Some(thread) => digits(thread, "number"),
        None => None,
    };
    begin(out)?;
    put_message(out, alloc, "message", line.words)?;
    open_list(out, "frames")?;
    for frame in line.callers() {
        let said = Said {
            function: text(frame, "function"),
            message: None,
        };
        begin(out)?;
        open(out, "location")?;
        put_location(out, alloc, sources, frame, said)?;
        if let Some(number) = thread {
            put_number(out, "threadId", number)?;
        }
        close(out)?;
    }
    close_list(out)?;
    close(out)
}
