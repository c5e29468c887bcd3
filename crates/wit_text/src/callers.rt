//! The callers of a report's places, where they are known.

use crate::lines::Lines;
use json::Value;
use std::alloc::AllocError;
use wit_documents::places::{is_code, place_name};
use wit_documents::reading::{digits, list, member, text, words};
use wit_documents::{Line, LineKind};

/// Each place with its thread and its stack. Whether there is one.
///
/// # Errors
/// Want of memory alone, as of all that follow.
pub(crate) fn put_callers(to: &mut Lines, lines: &[Line<'_, '_>]) -> Result<bool, AllocError> {
    let mut is_any = false;
    for number in 0..lines.len() {
        let line = &lines[number];
        let Some(place) = line.place else {
            continue;
        };
        if !is_visited(place) {
            continue;
        }
        if !is_any {
            to.line("callers:")?;
        }
        is_any = true;
        put_place(to, &lines[..number], line, place)?;
    }
    Ok(is_any)
}

// Whether it is known which thread was there, or on which way.
fn is_visited(place: &Value<'_>) -> bool {
    member(place, "thread").is_some() || !list(place, "callers").is_empty()
}

fn put_place(
    to: &mut Lines,
    before: &[Line<'_, '_>],
    line: &Line<'_, '_>,
    place: &Value<'_>,
) -> Result<(), AllocError> {
    let callers = list(place, "callers");
    to.begin()?;
    to.own(" ")?;
    to.text(heading_of(line, place))?;
    if is_of_types(line) {
        put_thread(to, before, place)?;
    }
    to.own(if callers.is_empty() { "" } else { ":" })?;
    to.end()?;
    for frame in callers {
        put_frame(to, frame)?;
    }
    Ok(())
}

// Whether it is of a lock or a step. Other lines have their threads in their words.
fn is_of_types(line: &Line<'_, '_>) -> bool {
    match line.kind {
        LineKind::Held | LineKind::Asked | LineKind::Step => true,
        _ => false,
    }
}

// The words, of a lock without what stands in brackets behind it.
fn heading_of<'a>(line: &Line<'_, 'a>, place: &Value<'_>) -> &'a str {
    match line.kind {
        LineKind::Held | LineKind::Asked => {
            without_type(line.words, words(place, "type"), words(place, "class"))
        }
        _ => line.words,
    }
}

// Of `LOCK (TYPE, CLASS)`, or of `LOCK (CLASS)`, the lock.
fn without_type<'a>(heading: &'a str, kind: &str, class: &str) -> &'a str {
    let Some(rest) = heading.strip_suffix(")") else {
        return heading;
    };
    let Some(rest) = rest.strip_suffix(class) else {
        return heading;
    };
    if let Some(lock) = rest.strip_suffix(" (") {
        return lock;
    }
    let Some(rest) = rest.strip_suffix(", ") else {
        return heading;
    };
    let Some(rest) = rest.strip_suffix(kind) else {
        return heading;
    };
    match rest.strip_suffix(" (") {
        Some(lock) => lock,
        None => heading,
    }
}

// The thread, with its name and who made it where the report names it first, and further on with its name.
fn put_thread(
    to: &mut Lines,
    before: &[Line<'_, '_>],
    place: &Value<'_>,
) -> Result<(), AllocError> {
    let Some(thread) = member(place, "thread") else {
        return Ok(());
    };
    let number = digits(thread, "number");
    to.own(", thread ")?;
    if let Some(number) = number {
        to.text(number)?;
    }
    if is_named(before, number) {
        put_name(to, thread)
    } else {
        put_label(to, thread)
    }
}

fn is_named(before: &[Line<'_, '_>], number: Option<&str>) -> bool {
    for line in before {
        if let Some(place) = line.place {
            if let Some(thread) = member(place, "thread") {
                if is_of_types(line) && digits(thread, "number") == number {
                    return true;
                }
            }
        }
    }
    false
}

fn put_name(to: &mut Lines, thread: &Value<'_>) -> Result<(), AllocError> {
    let Some(name) = text(thread, "name") else {
        return Ok(());
    };
    to.own(" (")?;
    to.text(name)?;
    to.own(")")
}

fn put_label(to: &mut Lines, thread: &Value<'_>) -> Result<(), AllocError> {
    let Some(made) = text(thread, "made") else {
        return put_name(to, thread);
    };
    to.own(" (")?;
    if let Some(name) = text(thread, "name") {
        to.text(name)?;
        to.own(", ")?;
    }
    put_maker(to, thread, made)?;
    to.own(")")
}

// A place without a line has the function itself.
fn put_maker(to: &mut Lines, thread: &Value<'_>, made: &str) -> Result<(), AllocError> {
    if let Some(place) = text(thread, "made_in") {
        to.own("made in ")?;
        return to.text(place);
    }
    to.own("made ")?;
    if let Some(maker) = text(thread, "maker") {
        to.own("by ")?;
        to.text(maker)?;
        to.own(" ")?;
    }
    to.own("@ ")?;
    to.text(made)
}

fn put_frame(to: &mut Lines, frame: &Value<'_>) -> Result<(), AllocError> {
    to.begin()?;
    to.own("  ")?;
    match text(frame, "function") {
        Some(function) if !is_code(frame) => {
            to.text(function)?;
            to.own(" (")?;
            to.text(place_name(frame))?;
            to.own(")")?;
        }
        _ => to.text(place_name(frame))?,
    }
    to.end()
}
