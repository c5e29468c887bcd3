//! The text as a whole.

use crate::lines::Lines;
use crate::reports::{is_told, put_report};
use crate::told::{Told, digits_of};
use json::{Scratch, Value};
use std::alloc::{AllocError, Global};
use std::io::Write;
use wit_documents::reading::{item, list, words};
use wit_documents::{DocumentError, Outline};

/// Writes what `record` told of a run: each report that isn't ignored, and then what was told besides, the summary
/// last. Where several processes were told of, each line of one begins with its number, and what was told of it comes
/// before what was told of the next one. It is handed over report by report, and each report is read where it is
/// written.
///
/// # Errors
/// `Memory` where a growth was refused, `Write` where it can't be written: what was written is a beginning of it.
pub fn write_text<W: Write>(
    alloc: Global,
    findings: &Outline<'_>,
    output: &mut W,
) -> Result<(), DocumentError> {
    let told = Told::of(alloc, findings)?;
    let reports = findings.list("reports");
    let mut to = Lines::new(alloc);
    let mut scratch = Scratch::new(alloc);
    let mut before = None;
    let mut passed = 0;
    for number in 0..reports.len() {
        let report = reports.read(alloc, number, &mut scratch)?;
        if !is_told(&report) {
            continue;
        }
        if told.is_of_several {
            let teller = teller_of(alloc, &report)?;
            passed = put_told_before(&mut to, alloc, &told, &teller, passed)?;
            put_heading(&mut to, told.command, &before, &teller)?;
            before = Some(teller);
        }
        put_report(&mut to, alloc, &report)?;
        to.hand_over(output)?;
    }
    for number in passed..told.lines.len() {
        told.put_line(&mut to, alloc, number)?;
        to.hand_over_much(output)?;
    }
    to.hand_over(output)
}

// Who told a report: the first process that has it, and that one's program.
#[derive(Drop)]
struct Teller {
    number: Option<String>,
    program: String,
}

fn teller_of(alloc: Global, report: &Value<'_>) -> Result<Teller, AllocError> {
    Ok(Teller {
        number: copy_of(alloc, number_of(report))?,
        program: String::from_str(alloc, words(report, "program"))?,
    })
}

fn number_of<'a>(report: &Value<'a>) -> Option<&'a str> {
    match item(list(report, "processes"), 0) {
        Some(process) => process.as_number(),
        None => None,
    }
}

fn copy_of(alloc: Global, text: Option<&str>) -> Result<Option<String>, AllocError> {
    match text {
        Some(text) => Ok(Some(String::from_str(alloc, text)?)),
        None => Ok(None),
    }
}

// What was told of processes before the one that told the report, whose lines follow. How many lines were told by then.
fn put_told_before(
    to: &mut Lines,
    alloc: Global,
    told: &Told<'_>,
    teller: &Teller,
    passed: usize,
) -> Result<usize, AllocError> {
    let end = match &teller.number {
        Some(process) => told.end_before(alloc, passed, process.as_str())?,
        None => passed,
    };
    for number in passed..end {
        told.put_line(to, alloc, number)?;
    }
    to.speaker = copy_of(alloc, digits_of(&teller.number))?;
    Ok(end)
}

// The heading of a report, where the report before is of another process.
fn put_heading(
    to: &mut Lines,
    command: &str,
    before: &Option<Teller>,
    teller: &Teller,
) -> Result<(), AllocError> {
    if is_of_same(before, teller) {
        return Ok(());
    }
    to.begin()?;
    to.text(command)?;
    to.own(": ")?;
    to.text(teller.program.as_str())?;
    to.own(":")?;
    to.end()
}

fn is_of_same(before: &Option<Teller>, teller: &Teller) -> bool {
    match before {
        Some(other) => {
            digits_of(&other.number) == digits_of(&teller.number)
                && other.program.as_str() == teller.program.as_str()
        }
        None => false,
    }
}
