//! How threads came to the places of a report, as SARIF has it.

use crate::hangs::put_hang;
use crate::lines::{Line, LineKind};
use crate::locations::{Said, Sources, put_location, put_message};
use crate::members::{begin, close, close_list, open, open_list, put_count, put_item, put_text};
use crate::places::{is_code, is_place, place_name};
use crate::plain::put_plain;
use crate::reading::{digits, item, member, text, words};
use json::{Pretty, Value};
use std::alloc::{AllocError, Global};

/// The flows: of the lines, as they came about, and of a steered run that hung.
///
/// # Errors
/// Want of memory alone, as of all that follow.
pub(crate) fn put_flows(
    out: &mut Pretty,
    alloc: Global,
    sources: &Sources<'_, '_>,
    report: &Value<'_>,
    lines: &[Line<'_, '_>],
) -> Result<(), AllocError> {
    let ordered = in_time(alloc, lines)?;
    open_list(out, "codeFlows")?;
    if !ordered.is_empty() {
        begin(out)?;
        open_list(out, "threadFlows")?;
        put_threads(out, alloc, sources, &ordered)?;
        close_list(out)?;
        close(out)?;
    }
    if let Some(confirmed) = member(report, "confirmed") {
        put_hang(out, alloc, sources, confirmed)?;
    }
    close_list(out)
}

/// Whether the line has a place.
pub(crate) fn has_place(line: &Line<'_, '_>) -> bool {
    match line.place {
        Some(place) => is_place(place),
        None => false,
    }
}

// The lines with places as they came about: of a circle, what a thread holds comes before what it waits
// for.
fn in_time<'v, 'a>(alloc: Global, lines: &[Line<'v, 'a>]) -> Result<Vec<Line<'v, 'a>>, AllocError> {
    let mut ordered = Vec::new(alloc);
    let mut waits: Option<Line<'v, 'a>> = None;
    for each in lines {
        if !has_place(each) {
            continue;
        }
        if let Some(wait) = waits {
            if wait.seat() != each.seat() {
                ordered.push(wait)?;
                waits = None;
            }
        }
        if each.kind == LineKind::Waits {
            waits = Some(*each);
        } else {
            ordered.push(*each)?;
        }
    }
    if let Some(wait) = waits {
        ordered.push(wait)?;
    }
    Ok(ordered)
}

// A flow for each thread.
fn put_threads(
    out: &mut Pretty,
    alloc: Global,
    sources: &Sources<'_, '_>,
    lines: &[Line<'_, '_>],
) -> Result<(), AllocError> {
    let mut before: Option<&Line<'_, '_>> = None;
    for line in lines {
        if let Some(last) = before {
            if !goes_on(last, line) {
                end_thread(out)?;
                begin_thread(out, alloc, line)?;
            }
        } else {
            begin_thread(out, alloc, line)?;
        }
        put_way(out, alloc, sources, line)?;
        before = Some(line);
    }
    if before.is_some() {
        end_thread(out)?;
    }
    Ok(())
}

// Whether what a line tells of is of the same thread as what the line before tells of.
fn goes_on(before: &Line<'_, '_>, line: &Line<'_, '_>) -> bool {
    if line.is_of_waits() {
        return before.seat() == line.seat();
    }
    let is_alike = (before.kind == line.kind) || (before.is_lock() && line.is_lock());
    let thread = line.thread_number();
    is_alike && before.thread_number() == thread && (thread > 0 || line.is_lock())
}

fn begin_thread(out: &mut Pretty, alloc: Global, line: &Line<'_, '_>) -> Result<(), AllocError> {
    begin(out)?;
    if let Some(thread) = line.thread() {
        let label = thread_label(alloc, thread)?;
        put_message(out, alloc, "message", &label)?;
    }
    open_list(out, "locations")
}

/// The end of a thread's flow.
pub(crate) fn end_thread(out: &mut Pretty) -> Result<(), AllocError> {
    close_list(out)?;
    close(out)
}

// `thread NUMBER (NAME, made by FUNCTION @ SITE)`, as far as it is known.
fn thread_label(alloc: Global, thread: &Value<'_>) -> Result<String, AllocError> {
    let mut label = String::from_str(alloc, "thread ")?;
    if let Some(number) = digits(thread, "number") {
        label.push_str(number)?;
    }
    let name = text(thread, "name");
    let made = text(thread, "made");
    if name.is_none() && made.is_none() {
        return Ok(label);
    }
    label.push_str(" (")?;
    if let Some(name) = name {
        label.push_str(name)?;
    }
    if let Some(made) = made {
        label.push_str(if name.is_some() { ", made " } else { "made " })?;
        put_made(&mut label, thread, made)?;
    }
    label.push(')')?;
    Ok(label)
}

// Where the thread was made. A place without a line has the function itself.
fn put_made(label: &mut String, thread: &Value<'_>, made: &str) -> Result<(), AllocError> {
    if let Some(name) = text(thread, "made_in") {
        label.push_str("in ")?;
        return label.push_str(name);
    }
    if let Some(maker) = text(thread, "maker") {
        label.push_str("by ")?;
        label.push_str(maker)?;
        label.push(' ')?;
    }
    label.push_str("@ ")?;
    label.push_str(made)
}

// How a thread came to the place, outermost function first.
fn put_way(
    out: &mut Pretty,
    alloc: Global,
    sources: &Sources<'_, '_>,
    line: &Line<'_, '_>,
) -> Result<(), AllocError> {
    let callers = line.callers();
    let above = callers.len().saturating_sub(1);
    for depth in 0..above {
        if let Some(frame) = item(callers, above - depth) {
            put_caller(out, alloc, sources, frame, depth)?;
        }
    }
    let said = Said {
        function: line.function(),
        message: Some(line.words),
    };
    match line.place {
        Some(place) => put_step(
            out,
            alloc,
            sources,
            place,
            said,
            Step {
                is_lock: true,
                depth: above,
            },
        ),
        None => Ok(()),
    }
}

// A call on the way. One whose place isn't known is left out.
fn put_caller(
    out: &mut Pretty,
    alloc: Global,
    sources: &Sources<'_, '_>,
    frame: &Value<'_>,
    depth: usize,
) -> Result<(), AllocError> {
    if !is_place(frame) {
        return Ok(());
    }
    let said = Said {
        function: text(frame, "function"),
        message: None,
    };
    let step = Step {
        is_lock: false,
        depth,
    };
    put_step(out, alloc, sources, frame, said, step)
}

/// How a step stands in its flow.
#[derive(Clone, Copy, Drop)]
pub(crate) struct Step {
    /// Whether a lock is asked for there.
    pub(crate) is_lock: bool,
    /// How many callers stand above it.
    pub(crate) depth: usize,
}

/// A step: a place, and what is said of it.
pub(crate) fn put_step(
    out: &mut Pretty,
    alloc: Global,
    sources: &Sources<'_, '_>,
    place: &Value<'_>,
    said: Said<'_>,
    step: Step,
) -> Result<(), AllocError> {
    begin(out)?;
    open(out, "location")?;
    put_location(out, alloc, sources, place, said)?;
    open_list(out, "kinds")?;
    put_item(out, if step.is_lock { "acquire" } else { "call" })?;
    if step.is_lock {
        put_item(out, "lock")?;
    }
    close_list(out)?;
    put_count(out, alloc, "nestingLevel", step.depth)?;
    put_text(
        out,
        "importance",
        if step.is_lock {
            "essential"
        } else {
            "unimportant"
        },
    )?;
    close(out)
}

/// `at [FILE:LINE](NUMBER)`, or `in [FUNCTION (OBJECT)](NUMBER)` where the line isn't known: it is added.
pub(crate) fn put_link(
    to: &mut String,
    alloc: Global,
    place: &Value<'_>,
    number: usize,
) -> Result<(), AllocError> {
    to.push_str(if is_code(place) { "in [" } else { "at [" })?;
    put_plain(to, place_name(place))?;
    to.push_str("](")?;
    let digits = number.to_string(alloc)?;
    to.push_str(&digits)?;
    to.push(')')
}
