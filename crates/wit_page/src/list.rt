//! All reports as a list, with links to their cards.

use crate::markup::Markup;
use crate::sections::Known;
use json::{Scratch, Value};
use std::alloc::{AllocError, Global};
use std::io::Write;
use wit_documents::reading::{list, member, text, truth, words};
use wit_documents::{DocumentError, is_confirmed, kind_of};

// Of more types of a report the first are named.
const TYPES_SHOWN: usize = 8;

/// The list; nothing where there is no report.
///
/// # Errors
/// As of the page.
pub(crate) fn write_list<W: Write>(
    to: &mut Markup,
    alloc: Global,
    known: &Known<'_, '_>,
    output: &mut W,
) -> Result<(), DocumentError> {
    let reports = known.findings.list("reports");
    if reports.is_empty() {
        return Ok(());
    }
    to.tag("<section id='all'><h2>All reports</h2>\n<p class='legend'>")?;
    to.number(alloc, known.contents.counted)?;
    to.tag(" of ")?;
    to.number(alloc, reports.len())?;
    to.tag(
        " count for the status of <code>--error-exitcode</code>, by <code>--alarms</code>.</p>\n",
    )?;
    to.tag(
        "<div class='wide' tabindex='0' role='region' aria-label='All reports'><table>\n<thead><tr><th>Report</th><th>Kind</th><th>Types</th><th>Single locks</th><th>Counts</th></tr></thead>\n<tbody>\n",
    )?;
    let mut scratch = Scratch::new(alloc);
    for number in 0..reports.len() {
        let report = reports.read(alloc, number, &mut scratch)?;
        put_entry(to, alloc, &report, number + 1)?;
        to.hand_over_much(output)?;
    }
    to.tag("</tbody></table></div>\n</section>\n")?;
    Ok(())
}

// Want of memory alone, as of all that follow.
fn put_entry(
    to: &mut Markup,
    alloc: Global,
    report: &Value<'_>,
    number: usize,
) -> Result<(), AllocError> {
    to.tag("<tr><td><a href='#report-")?;
    to.number(alloc, number)?;
    to.tag("'>")?;
    to.number(alloc, number)?;
    to.tag("</a></td><td>")?;
    to.tag(kind_of(report).name())?;
    to.tag("</td><td>")?;
    put_types(to, list(report, "types"))?;
    to.tag("</td><td>")?;
    to.tag(grade_words(report))?;
    if let Some(single) = member(report, "single") {
        put_apart(to, single)?;
    }
    to.tag(if truth(report, "silenced") {
        "</td><td>silenced</td></tr>\n"
    } else if truth(report, "counts") {
        "</td><td>yes</td></tr>\n"
    } else {
        "</td><td>no</td></tr>\n"
    })
}

fn put_types(to: &mut Markup, types: &[Value<'_>]) -> Result<(), AllocError> {
    for number in 0..types.len() {
        if number >= TYPES_SHOWN {
            return Ok(());
        }
        if number > 0 {
            to.tag(", ")?;
        }
        if let Some(name) = types[number].as_str() {
            to.code(name)?;
        }
    }
    Ok(())
}

// How much is known of its single locks, in a few words.
fn grade_words(report: &Value<'_>) -> &'static str {
    if is_confirmed(report) {
        return "confirmed: it hung";
    }
    let Some(single) = member(report, "single") else {
        return "";
    };
    let grade = words(single, "grade");
    if grade == "types" {
        "types alone"
    } else if grade == "thread" {
        "the same locks, one thread"
    } else if grade == "threads" {
        "the same locks, several threads"
    } else {
        "not known"
    }
}

// What keeps its orders apart, in words of --alarms.
fn put_apart(to: &mut Markup, single: &Value<'_>) -> Result<(), AllocError> {
    if text(single, "gate").is_some() {
        to.tag("; gate")?;
    }
    if truth(single, "readers") {
        to.tag("; readers")?;
    }
    if truth(single, "timed") {
        to.tag("; timed")?;
    }
    if truth(single, "apart") {
        to.tag("; apart")?;
    }
    Ok(())
}
