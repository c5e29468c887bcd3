//! The sections of the page in which reports stand.

use crate::cards::{Card, put_card};
use crate::contents::{Contents, Place};
use crate::markup::Markup;
use crate::sources::Source;
use crate::wheres::Shown;
use json::{Scratch, Value};
use std::alloc::{AllocError, Global};
use std::io::Write;
use wit_documents::reading::{text, truth};
use wit_documents::{DocumentError, Kind, Outline, kind_of};

// So many reports all stand open, and of more those that count.
const OPEN_MOST: usize = 8;

/// Where a report stands in the page.
#[derive(Clone, Copy, Drop, PartialEq, Eq)]
pub(crate) enum Section {
    /// Threads that wait for one another, or for themselves.
    Circles,
    /// What may come to hang.
    Reports,
    /// Errors in the use of locks.
    Errors,
    /// What the files of ignored pairs allow.
    Silenced,
}

/// The section of a report.
pub(crate) fn section_of(report: &Value<'_>) -> Section {
    if truth(report, "silenced") {
        return Section::Silenced;
    }
    match kind_of(report) {
        Kind::Circle | Kind::Itself => Section::Circles,
        Kind::Error => Section::Errors,
        _ => Section::Reports,
    }
}

/// What is known before the first report is written.
#[derive(Clone, Copy, Drop)]
pub(crate) struct Known<'v, 'a> {
    /// The JSON report.
    pub(crate) findings: &'v Outline<'a>,
    /// Where each of its reports stands.
    pub(crate) contents: &'v Contents,
    /// Its sources.
    pub(crate) sources: &'v [Source<'v>],
}

/// Writes the sections of reports, card by card.
///
/// # Errors
/// As of the page.
pub(crate) fn write_reports<W: Write>(
    to: &mut Markup,
    alloc: Global,
    known: &Known<'_, '_>,
    output: &mut W,
) -> Result<(), DocumentError> {
    let contents = known.contents;
    if contents.count_in(Section::Circles) > 0 {
        to.tag("<section id='circles'><h2>Circles</h2>\n")?;
        write_section(to, alloc, known, Section::Circles, output)?;
    }
    to.tag("<section id='reports'><h2>Reports</h2>\n")?;
    if contents.count_in(Section::Reports) == 0 {
        put_nothing(to, known)?;
    }
    write_section(to, alloc, known, Section::Reports, output)?;
    if contents.count_in(Section::Errors) > 0 {
        to.tag("<section id='errors'><h2>Errors</h2>\n")?;
        write_section(to, alloc, known, Section::Errors, output)?;
    }
    if contents.count_in(Section::Silenced) > 0 {
        to.tag("<section id='silenced'><h2>Silenced</h2>\n")?;
        put_allowance(to, known.findings)?;
        write_section(to, alloc, known, Section::Silenced, output)?;
    }
    Ok(())
}

fn put_allowance(to: &mut Markup, findings: &Outline<'_>) -> Result<(), AllocError> {
    match findings.text("ignore") {
        Some(file) => {
            to.tag("<p>Lines of ")?;
            to.code(file)?;
            to.tag(" allow these.</p>\n")
        }
        None => to.tag("<p>The lists of right orders of libraries allow these.</p>\n"),
    }
}

// Green where all is well by the last line; where not all was seen it says so itself.
fn put_nothing(to: &mut Markup, known: &Known<'_, '_>) -> Result<(), AllocError> {
    let Some(summary) = known.findings.text("summary") else {
        return to.tag("<p>There is no report.</p>\n");
    };
    let is_good = summary.starts_with("nothing to report")
        && known.contents.count_in(Section::Errors) == 0;
    to.tag(if is_good { "<p class='good'>" } else { "<p>" })?;
    to.text(summary)?;
    to.tag("</p>\n")
}

// The cards of a section, which stands open: what is confirmed comes first.
fn write_section<W: Write>(
    to: &mut Markup,
    alloc: Global,
    known: &Known<'_, '_>,
    section: Section,
    output: &mut W,
) -> Result<(), DocumentError> {
    for is_confirmed in [true, false] {
        let place = Place {
            section,
            is_confirmed,
        };
        write_cards(to, alloc, known, place, output)?;
    }
    to.tag("</section>\n")?;
    Ok(())
}

// The cards of that place.
fn write_cards<W: Write>(
    to: &mut Markup,
    alloc: Global,
    known: &Known<'_, '_>,
    place: Place,
    output: &mut W,
) -> Result<(), DocumentError> {
    let reports = known.findings.list("reports");
    let mut scratch = Scratch::new(alloc);
    for number in 0..reports.len() {
        if !known.contents.is_at(number, place) {
            continue;
        }
        let report = reports.read(alloc, number, &mut scratch)?;
        let is_few = reports.len() <= OPEN_MOST;
        let card = Card {
            report: &report,
            number: number + 1,
            is_open: !truth(&report, "silenced") && (is_few || truth(&report, "counts")),
            shown: Shown {
                sources: known.sources,
                is_built: is_of_program(known.findings, &report),
            },
            types: known.contents.types.as_slice(),
        };
        put_card(to, alloc, &card)?;
        to.hand_over(output)?;
    }
    Ok(())
}

// Whether the report is of the program that was run, of which it is known when it was built.
fn is_of_program(findings: &Outline<'_>, report: &Value<'_>) -> bool {
    match findings.text("program") {
        Some(program) => text(report, "program") == Some(program),
        None => false,
    }
}
