//! What dot draws of a JSON report: a graph after the other.

use crate::arrows::{Arrow, arrows_of_process, arrows_of_report};
use crate::graph::{Drawn, put_graph};
use json::Scratch;
use std::alloc::Global;
use std::io::Write;
use wit_documents::{DocumentError, Outline};

// So many processes have a picture in a page.
const PICTURES_MOST: usize = 8;

/// Writes a graph for each process, of its orders: a type whose locks are taken together has no arrow to itself.
///
/// # Errors
/// `Memory` where a growth was refused, `Write` where it can't be written: what was written is a beginning of it.
pub fn write_dot<W: Write>(
    alloc: Global,
    findings: &Outline<'_>,
    output: &mut W,
) -> Result<(), DocumentError> {
    let processes = findings.list("processes");
    let mut scratch = Scratch::new(alloc);
    for number in 0..processes.len() {
        let process = processes.read(alloc, number, &mut scratch)?;
        let arrows = arrows_of_process(alloc, &process)?;
        write_graph(alloc, arrows.as_slice(), Drawn::Orders, output)?;
    }
    Ok(())
}

/// Writes what the pictures of a page are drawn of: a graph for each report, of the orders that it speaks of, and
/// for each of the first eight processes. One of which there is no order is empty. None has more than 200 arrows;
/// of more, those of reports come first.
///
/// # Errors
/// As of `write_dot`.
pub fn write_pictures<W: Write>(
    alloc: Global,
    findings: &Outline<'_>,
    output: &mut W,
) -> Result<(), DocumentError> {
    let reports = findings.list("reports");
    let mut scratch = Scratch::new(alloc);
    for number in 0..reports.len() {
        let report = reports.read(alloc, number, &mut scratch)?;
        let arrows = arrows_of_report(alloc, &report)?;
        write_graph(alloc, arrows.as_slice(), Drawn::Few, output)?;
    }
    let processes = findings.list("processes");
    for number in 0..processes.len().min(PICTURES_MOST) {
        let process = processes.read(alloc, number, &mut scratch)?;
        let arrows = arrows_of_process(alloc, &process)?;
        write_graph(alloc, arrows.as_slice(), Drawn::Few, output)?;
    }
    Ok(())
}

fn write_graph<W: Write>(
    alloc: Global,
    arrows: &[Arrow<'_>],
    drawn: Drawn,
    output: &mut W,
) -> Result<(), DocumentError> {
    let mut graph = String::new(alloc);
    put_graph(&mut graph, arrows, drawn)?;
    match output.write_all(graph.as_bytes()) {
        Ok(()) => Ok(()),
        Err(_) => Err(DocumentError::Write),
    }
}
