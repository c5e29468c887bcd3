//! Reports as results of SARIF.

use crate::flows::{has_place, put_flows, put_link};
use crate::kinds::{Kind, is_confirmed, kind_of};
use crate::lines::{Line, LineKind, lines_of};
use crate::locations::{Said, Sources, put_location, put_whole_message};
use crate::members::{begin, close, close_list, open, open_list, put_count, put_digits, put_text};
use crate::places::has_line;
use crate::plain::put_plain;
use crate::reading::{list, member, text, truth, words};
use crate::stacks::put_stacks;
use json::{Pretty, Value};
use std::alloc::{AllocError, Global};

/// The report as a result, in which so many reports before it have its fingerprint. `ignore` is the
/// user's file of what is ignored.
///
/// # Errors
/// Want of memory alone, as of all that follow.
pub(crate) fn put_result(
    out: &mut Pretty,
    alloc: Global,
    sources: &Sources<'_, '_>,
    report: &Value<'_>,
    ignore: Option<&str>,
    repeats: usize,
) -> Result<(), AllocError> {
    let kind = kind_of(report);
    let lines = lines_of(alloc, report)?;
    begin(out)?;
    put_text(out, "ruleId", kind.rule())?;
    put_count(out, alloc, "ruleIndex", kind.rule_number())?;
    put_text(out, "level", level_of(report, kind))?;
    let message = message_of(alloc, report, kind, &lines)?;
    put_whole_message(out, "message", &message)?;
    put_locations(out, alloc, sources, &lines)?;
    put_flows(out, alloc, sources, report, &lines)?;
    put_stacks(out, alloc, sources, &lines)?;
    put_fingerprints(out, alloc, report, repeats)?;
    if truth(report, "silenced") {
        put_suppression(out, alloc, ignore)?;
    }
    put_count(
        out,
        alloc,
        "occurrenceCount",
        list(report, "processes").len(),
    )?;
    put_properties(out, report)?;
    close(out)
}

fn level_of(report: &Value<'_>, kind: Kind) -> &'static str {
    if kind.is_certain() || is_confirmed(report) {
        "error"
    } else if truth(report, "counts") || truth(report, "silenced") {
        "warning"
    } else {
        "note"
    }
}

// The description, then each line, with a link to its place.
fn message_of(
    alloc: Global,
    report: &Value<'_>,
    kind: Kind,
    lines: &[Line<'_, '_>],
) -> Result<String, AllocError> {
    let mut message = String::new(alloc);
    if kind == Kind::Reversal {
        message.push_str(kind.name())?;
        message.push_str(": ")?;
    }
    put_plain(&mut message, words(report, "description"))?;
    message.push('.')?;
    for line in lines {
        put_line(&mut message, alloc, line)?;
    }
    put_more(&mut message, member(report, "single"))?;
    put_more(&mut message, member(report, "confirmed"))?;
    Ok(message)
}

fn put_line(message: &mut String, alloc: Global, line: &Line<'_, '_>) -> Result<(), AllocError> {
    message.push('\n')?;
    put_plain(message, line.words)?;
    let Some(place) = line.place else {
        return Ok(());
    };
    if has_place(line) {
        message.push(' ')?;
        put_link(message, alloc, place, line.number)?;
        message.push('.')?;
    } else if let Some(site) = text(place, "site") {
        message.push_str(", ")?;
        put_plain(message, site)?;
        message.push('.')?;
    }
    Ok(())
}

// What was told besides, as a line of its own.
fn put_more(message: &mut String, told: Option<&Value<'_>>) -> Result<(), AllocError> {
    let Some(told) = told else {
        return Ok(());
    };
    let more = words(told, "text");
    if !more.is_empty() {
        message.push('\n')?;
        put_plain(message, more)?;
    }
    Ok(())
}

fn put_locations(
    out: &mut Pretty,
    alloc: Global,
    sources: &Sources<'_, '_>,
    lines: &[Line<'_, '_>],
) -> Result<(), AllocError> {
    open_list(out, "locations")?;
    if let Some(line) = main_line(lines) {
        begin(out)?;
        put_place_of(out, alloc, sources, line, None)?;
    }
    close_list(out)?;
    open_list(out, "relatedLocations")?;
    for line in lines {
        if has_place(line) {
            begin(out)?;
            put_count(out, alloc, "id", line.number)?;
            put_place_of(out, alloc, sources, line, Some(line.words))?;
        }
    }
    close_list(out)
}

// The location of a line, whose object stands open: it ends it.
fn put_place_of(
    out: &mut Pretty,
    alloc: Global,
    sources: &Sources<'_, '_>,
    line: &Line<'_, '_>,
    message: Option<&str>,
) -> Result<(), AllocError> {
    let said = Said {
        function: line.function(),
        message,
    };
    match line.place {
        Some(place) => put_location(out, alloc, sources, place, said),
        None => close(out),
    }
}

// The line whose place the report is shown at: where the lock was asked for, or else the first that has
// a line. Without lines it is the first that is known.
fn main_line<'l, 'v, 'a>(lines: &'l [Line<'v, 'a>]) -> Option<&'l Line<'v, 'a>> {
    let mut first: Option<&'l Line<'v, 'a>> = None;
    for line in lines {
        if !has_place(line) {
            continue;
        }
        if line.kind == LineKind::Asked && stands_in_file(line) {
            return Some(line);
        }
        match first {
            Some(other) => {
                if !stands_in_file(other) && stands_in_file(line) {
                    first = Some(line);
                }
            }
            None => first = Some(line),
        }
    }
    first
}

fn stands_in_file(line: &Line<'_, '_>) -> bool {
    match line.place {
        Some(place) => has_line(place),
        None => false,
    }
}

// The second one is by which GitHub tells alerts apart: a hash, and its number among equal ones.
fn put_fingerprints(
    out: &mut Pretty,
    alloc: Global,
    report: &Value<'_>,
    repeats: usize,
) -> Result<(), AllocError> {
    let mut hash = String::from_str(alloc, words(report, "fingerprint"))?;
    hash.push(':')?;
    let digits = repeats.saturating_add(1).to_string(alloc)?;
    hash.push_str(&digits)?;
    open(out, "partialFingerprints")?;
    put_text(out, "recordLockOrder/v1", &hash)?;
    put_text(out, "primaryLocationLineHash", &hash)?;
    close(out)
}

fn put_suppression(
    out: &mut Pretty,
    alloc: Global,
    ignore: Option<&str>,
) -> Result<(), AllocError> {
    let list = match ignore {
        Some(file) => file,
        None => "the lists of right orders of libraries",
    };
    let mut justification = String::from_str(alloc, "a line of ")?;
    justification.push_str(list)?;
    justification.push_str(" allows it")?;
    open_list(out, "suppressions")?;
    begin(out)?;
    put_text(out, "kind", "external")?;
    put_text(out, "justification", &justification)?;
    close(out)?;
    close_list(out)
}

fn put_properties(out: &mut Pretty, report: &Value<'_>) -> Result<(), AllocError> {
    open(out, "properties")?;
    open_list(out, "processes")?;
    for process in list(report, "processes") {
        if let Some(number) = process.as_number() {
            put_digits(out, number)?;
        }
    }
    close_list(out)?;
    if let Some(silence) = text(report, "silence") {
        put_text(out, "silence", silence)?;
    }
    close(out)
}
