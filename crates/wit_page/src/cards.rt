//! A report as a card.

use crate::locks::{put_error, put_locks, put_steps};
use crate::markup::Markup;
use crate::orders::{picture_of, put_picture};
use crate::schedule::put_schedule;
use crate::waits::put_waits;
use crate::wheres::Shown;
use json::Value;
use std::alloc::{AllocError, Global};
use wit_documents::reading::{item, list, member, text, truth, words};
use wit_documents::{Kind, is_confirmed, kind_of};

// Of more processes the first are named.
const PROCESSES_SHOWN: usize = 12;

/// A report, with what is known of all.
#[derive(Clone, Copy, Drop)]
pub(crate) struct Card<'v, 'a> {
    /// The report.
    pub(crate) report: &'v Value<'a>,
    /// Its number, from 1 on.
    pub(crate) number: usize,
    /// Whether it stands open.
    pub(crate) is_open: bool,
    /// What its places are looked up in.
    pub(crate) shown: Shown<'v, 'a>,
    /// The types of all reports, by which they are found.
    pub(crate) types: &'v [String],
}

/// The card.
///
/// # Errors
/// Want of memory alone, as of all that follow.
pub(crate) fn put_card(
    to: &mut Markup,
    alloc: Global,
    card: &Card<'_, '_>,
) -> Result<(), AllocError> {
    let report = card.report;
    put_head(to, alloc, card)?;
    to.tag(if card.is_open {
        "<details class='body' open>"
    } else {
        "<details class='body'>"
    })?;
    to.tag("<summary>Places, picture and advice</summary>\n")?;
    put_locks(to, alloc, card)?;
    put_steps(to, alloc, card)?;
    put_waits(to, alloc, &card.shown, report)?;
    put_error(to, alloc, card)?;
    put_plain_lines(to, report)?;
    put_schedule(to, alloc, &card.shown, report)?;
    put_picture(to, "Picture of the report", &picture_of(report))?;
    if !truth(report, "silenced") {
        put_advice(to, report)?;
    }
    put_silence(to, report)?;
    to.tag("</details>\n</article>\n")
}

fn put_head(to: &mut Markup, alloc: Global, card: &Card<'_, '_>) -> Result<(), AllocError> {
    let (report, number) = (card.report, card.number);
    let is_silenced = truth(report, "silenced");
    to.tag(if is_silenced {
        "<article class='card silenced' id='report-"
    } else {
        "<article class='card' id='report-"
    })?;
    to.number(alloc, number)?;
    to.tag("' data-kind='")?;
    to.text(words(report, "kind"))?;
    to.tag("' data-types='")?;
    put_types(to, alloc, card)?;
    to.tag("' aria-labelledby='title-")?;
    to.number(alloc, number)?;
    to.tag("'>\n<header><p class='kind'>")?;
    to.tag(kind_of(report).name())?;
    if is_silenced {
        to.tag(", silenced")?;
    } else if !truth(report, "counts") {
        to.tag(", which doesn't count for the status")?;
    }
    to.tag("</p>\n")?;
    put_title(to, alloc, card)?;
    put_facts(to, alloc, report)?;
    put_known(to, report)?;
    to.tag("</header>\n")
}

fn put_title(to: &mut Markup, alloc: Global, card: &Card<'_, '_>) -> Result<(), AllocError> {
    to.tag("<h3 id='title-")?;
    to.number(alloc, card.number)?;
    to.tag("'>")?;
    to.text(words(card.report, "description"))?;
    to.tag(" <a class='link' href='#report-")?;
    to.number(alloc, card.number)?;
    to.tag("'>report ")?;
    to.number(alloc, card.number)?;
    to.tag("</a></h3>\n")
}

// The numbers of its types among those of all reports.
fn put_types(to: &mut Markup, alloc: Global, card: &Card<'_, '_>) -> Result<(), AllocError> {
    let mut is_first = true;
    for each in list(card.report, "types") {
        if let Some(name) = each.as_str() {
            if !is_first {
                to.tag(" ")?;
            }
            to.number(alloc, number_of(card.types, name))?;
            is_first = false;
        }
    }
    Ok(())
}

// The place of the type among all; behind them all where it isn't there.
fn number_of(types: &[String], name: &str) -> usize {
    for number in 0..types.len() {
        if types[number].as_str() == name {
            return number;
        }
    }
    types.len()
}

fn put_facts(to: &mut Markup, alloc: Global, report: &Value<'_>) -> Result<(), AllocError> {
    let processes = list(report, "processes");
    to.tag("<p class='facts'>")?;
    to.code(words(report, "program"))?;
    if is_of_many_runs(processes) {
        return to.tag("</p>\n");
    }
    to.tag(", ")?;
    if processes.len() > 1 {
        to.number(alloc, processes.len())?;
        to.tag(" processes: ")?;
    } else {
        to.tag("process ")?;
    }
    put_processes(to, processes)?;
    to.tag(if processes.len() > PROCESSES_SHOWN {
        " and others</p>\n"
    } else {
        "</p>\n"
    })
}

// What is of many runs is of no process.
fn is_of_many_runs(processes: &[Value<'_>]) -> bool {
    match item(processes, 0) {
        Some(process) => process.as_u64() == Some(0),
        None => true,
    }
}

fn put_processes(to: &mut Markup, processes: &[Value<'_>]) -> Result<(), AllocError> {
    for number in 0..processes.len() {
        if number >= PROCESSES_SHOWN {
            return Ok(());
        }
        if number > 0 {
            to.tag(", ")?;
        }
        if let Some(process) = processes[number].as_number() {
            to.text(process)?;
        }
    }
    Ok(())
}

// What is known of its single locks, and of steered runs.
fn put_known(to: &mut Markup, report: &Value<'_>) -> Result<(), AllocError> {
    if let Some(single) = member(report, "single") {
        put_single(
            to,
            words(single, "text"),
            words(single, "grade") == "threads",
        )?;
    }
    match member(report, "confirmed") {
        Some(confirmed) => put_single(to, words(confirmed, "text"), is_confirmed(report)),
        None => Ok(()),
    }
}

fn put_single(to: &mut Markup, words: &str, is_bad: bool) -> Result<(), AllocError> {
    if words.is_empty() {
        return Ok(());
    }
    to.tag(if is_bad {
        "<p class='single bad'>"
    } else {
        "<p class='single'>"
    })?;
    to.text(words)?;
    to.tag("</p>\n")
}

// The lines of a report that is of the recording, as they were told.
fn put_plain_lines(to: &mut Markup, report: &Value<'_>) -> Result<(), AllocError> {
    if kind_of(report) != Kind::Other {
        return Ok(());
    }
    to.tag("<ul class='told'>\n")?;
    put_items(to, list(report, "text"))?;
    to.tag("</ul>\n")
}

fn put_items(to: &mut Markup, lines: &[Value<'_>]) -> Result<(), AllocError> {
    for each in lines {
        put_item(to, each)?;
    }
    Ok(())
}

/// A text as an item of a list.
pub(crate) fn put_item(to: &mut Markup, line: &Value<'_>) -> Result<(), AllocError> {
    match line.as_str() {
        Some(line) => {
            to.tag("<li>")?;
            to.text(line)?;
            to.tag("</li>\n")
        }
        None => Ok(()),
    }
}

fn put_advice(to: &mut Markup, report: &Value<'_>) -> Result<(), AllocError> {
    let advice = list(report, "advice");
    if advice.is_empty() {
        return Ok(());
    }
    to.tag("<h4 class='part'>What to do</h4>\n<ol class='advice'>\n")?;
    put_items(to, advice)?;
    to.tag("</ol>\n")
}

fn put_silence(to: &mut Markup, report: &Value<'_>) -> Result<(), AllocError> {
    let Some(silence) = text(report, "silence") else {
        return Ok(());
    };
    to.tag("<p class='silence'><span>")?;
    to.tag(if truth(report, "silenced") {
        "A line that allows it:"
    } else {
        "The line for --ignore:"
    })?;
    to.tag("</span>")?;
    to.code(silence)?;
    to.tag("<button type='button'>Copy</button></p>\n")
}
