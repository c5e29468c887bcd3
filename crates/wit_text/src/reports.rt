//! A report: its lines, the callers of its places, and what is said of its single locks.

use crate::callers::put_callers;
use crate::lines::Lines;
use json::Value;
use std::alloc::{AllocError, Global};
use wit_documents::reading::{list, member, text, truth, words};
use wit_documents::{Kind, kind_of, lines_of};

/// Whether it is told. One that is ignored isn't, and an error is a line of what is told besides.
pub(crate) fn is_told(report: &Value<'_>) -> bool {
    !truth(report, "silenced") && kind_of(report) != Kind::Error
}

/// Its lines; below them the callers, the line that would have it ignored, and where callers are known what is said
/// of single locks and of a schedule.
///
/// # Errors
/// Want of memory alone, as of all that follow.
pub(crate) fn put_report(
    to: &mut Lines,
    alloc: Global,
    report: &Value<'_>,
) -> Result<(), AllocError> {
    for each in list(report, "text") {
        if let Some(line) = each.as_str() {
            to.line(line)?;
        }
    }
    let lines = lines_of(alloc, report)?;
    let with_callers = put_callers(to, lines.as_slice())?;
    if let Some(ignore_line) = text(report, "silence") {
        to.line(ignore_line)?;
    }
    match member(report, "single") {
        Some(single) if with_callers => put_single(to, single),
        _ => Ok(()),
    }
}

fn put_single(to: &mut Lines, single: &Value<'_>) -> Result<(), AllocError> {
    let told = words(single, "text");
    if !told.is_empty() {
        to.line(told)?;
    }
    match member(single, "schedule") {
        Some(schedule) => put_schedule(to, schedule),
        None => Ok(()),
    }
}

fn put_schedule(to: &mut Lines, schedule: &Value<'_>) -> Result<(), AllocError> {
    let told = words(schedule, "text");
    if told.is_empty() {
        return Ok(());
    }
    to.begin()?;
    to.own(if words(schedule, "result") == "hangs" {
        "hangs so: "
    } else {
        "no schedule: "
    })?;
    to.text(told)?;
    to.end()
}
