//! The threads of the processes, as a table.

use crate::markup::Markup;
use json::{Scratch, Value};
use std::alloc::{AllocError, Global};
use std::io::Write;
use wit_documents::reading::{digits, text, words};
use wit_documents::{DocumentError, Items, Outline};

// So many threads are in a page; beyond it is said that there are more.
const ROWS_MOST: usize = 500;

/// The section of threads.
///
/// # Errors
/// As of the page.
pub(crate) fn write_threads<W: Write>(
    to: &mut Markup,
    alloc: Global,
    processes: Items<'_>,
    output: &mut W,
) -> Result<(), DocumentError> {
    to.tag("<section id='threads'><h2>Threads</h2>\n")?;
    let mut rows: usize = 0;
    for number in 0..processes.len() {
        if rows < ROWS_MOST {
            let process = processes.outline(alloc, number)?;
            rows = put_rows(to, alloc, &process, rows)?;
            to.hand_over_much(output)?;
        }
    }
    to.tag(if rows == 0 {
        "<p>None was noted.</p>\n</section>\n"
    } else if rows == ROWS_MOST {
        "</tbody></table></div>\n<p>Further threads aren't listed.</p>\n</section>\n"
    } else {
        "</tbody></table></div>\n</section>\n"
    })?;
    Ok(())
}

// The threads of a process, behind so many rows, and how many rows there are then. Before the first one the table begins.
fn put_rows(
    to: &mut Markup,
    alloc: Global,
    process: &Outline<'_>,
    before: usize,
) -> Result<usize, AllocError> {
    let threads = process.list("threads");
    let mut scratch = Scratch::new(alloc);
    let mut rows = before;
    for number in 0..threads.len() {
        if rows < ROWS_MOST {
            if rows == 0 {
                put_heading(to)?;
            }
            let thread = threads.read(alloc, number, &mut scratch)?;
            put_thread(to, process, &thread)?;
            rows += 1;
        }
    }
    Ok(rows)
}

fn put_heading(to: &mut Markup) -> Result<(), AllocError> {
    to.tag(
        "<div class='wide' tabindex='0' role='region' aria-label='Threads'><table>\n<thead><tr><th scope='col'>Thread</th><th scope='col'>Name</th><th scope='col'>Made by</th><th scope='col'>At</th><th scope='col'>Process</th></tr></thead>\n<tbody>\n",
    )
}

fn put_thread(
    to: &mut Markup,
    process: &Outline<'_>,
    thread: &Value<'_>,
) -> Result<(), AllocError> {
    to.tag("<tr><td>")?;
    put_number(to, digits(thread, "number"))?;
    to.tag("</td><td>")?;
    to.text(words(thread, "name"))?;
    to.tag("</td><td>")?;
    if let Some(maker) = text(thread, "maker") {
        to.code(maker)?;
    }
    to.tag("</td><td>")?;
    if let Some(made) = text(thread, "made") {
        match text(thread, "made_in") {
            Some(name) => to.code(name)?,
            None => to.code(made)?,
        }
    }
    to.tag("</td><td>")?;
    to.code(process.words("program"))?;
    to.tag(" ")?;
    put_number(to, process.digits("process"))?;
    to.tag("</td></tr>\n")
}

fn put_number(to: &mut Markup, digits: Option<&str>) -> Result<(), AllocError> {
    match digits {
        Some(number) => to.text(number),
        None => Ok(()),
    }
}
