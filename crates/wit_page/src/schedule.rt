//! How threads could have come to hang, as a table: a column for each, and a row for each step.

use crate::markup::Markup;
use crate::wheres::{Shown, put_line};
use json::Value;
use std::alloc::{AllocError, Global};
use wit_documents::reading::{count, digits, list, member, text, truth, words};

// No table that somebody reads has more.
const COLUMNS_MOST: u64 = 12;

/// The schedule of the report; nothing where it has none.
///
/// # Errors
/// Want of memory alone, as of all that follow.
pub(crate) fn put_schedule(
    to: &mut Markup,
    alloc: Global,
    shown: &Shown<'_, '_>,
    report: &Value<'_>,
) -> Result<(), AllocError> {
    let Some(single) = member(report, "single") else {
        return Ok(());
    };
    let Some(schedule) = member(single, "schedule") else {
        return Ok(());
    };
    let rows = list(schedule, "rows");
    let columns = columns_of(rows);
    if rows.is_empty() || columns > COLUMNS_MOST {
        return Ok(());
    }
    to.tag("<h4 class='part'>How they could hang</h4>\n<p class='legend'>")?;
    to.text(words(schedule, "text"))?;
    to.tag(
        "</p>\n<div class='wide' tabindex='0' role='region' aria-label='A schedule that hangs'><table class='schedule'>\n",
    )?;
    put_threads(to, alloc, rows, columns)?;
    for row in rows {
        put_row(to, alloc, shown, rows, row, columns)?;
    }
    to.tag("</tbody></table></div>\n")?;
    if count(schedule, "rests_on") > 0 {
        to.tag(
            "<p class='legend'>The schedule rests on the marked rows: they came in this sequence.</p>\n",
        )?;
    }
    to.tag(
        "<p class='legend'>No values were recorded: by another one a thread might go another way.</p>\n",
    )
}

fn columns_of(rows: &[Value<'_>]) -> u64 {
    let mut columns = 0;
    for row in rows {
        let column = count(row, "column");
        if column > columns {
            columns = column;
        }
    }
    columns
}

// The head of the table.
fn put_threads(
    to: &mut Markup,
    alloc: Global,
    rows: &[Value<'_>],
    columns: u64,
) -> Result<(), AllocError> {
    to.tag("<thead><tr>")?;
    for before in 0..columns {
        let column = before + 1;
        to.tag("<th scope='col'>")?;
        put_thread(to, alloc, rows, column)?;
        to.tag("</th>")?;
    }
    to.tag("</tr></thead>\n<tbody>\n")
}

fn put_thread(
    to: &mut Markup,
    alloc: Global,
    rows: &[Value<'_>],
    column: u64,
) -> Result<(), AllocError> {
    for row in rows {
        if count(row, "column") != column {
            continue;
        }
        if let Some(number) = digits(row, "thread") {
            to.tag("Thread ")?;
            return to.text(number);
        }
        if let Some(number) = digits(row, "like") {
            to.tag("A thread that does as thread ")?;
            return to.text(number);
        }
    }
    let digits = column.to_string(alloc)?;
    to.tag("A thread, ")?;
    to.text(&digits)
}

fn put_row(
    to: &mut Markup,
    alloc: Global,
    shown: &Shown<'_, '_>,
    rows: &[Value<'_>],
    row: &Value<'_>,
    columns: u64,
) -> Result<(), AllocError> {
    to.tag(if truth(row, "rests") {
        "<tr class='rests'>"
    } else {
        "<tr>"
    })?;
    for before in 0..columns {
        if before + 1 == count(row, "column") {
            put_deed(to, alloc, rows, row)?;
            put_line(to, alloc, shown, row)?;
            to.tag("</td>")?;
        } else {
            to.tag("<td></td>")?;
        }
    }
    to.tag("</tr>\n")
}

// What the thread does, and where, in a cell that stays open. An arrow goes to the column that holds what it waits for.
fn put_deed(
    to: &mut Markup,
    alloc: Global,
    rows: &[Value<'_>],
    row: &Value<'_>,
) -> Result<(), AllocError> {
    let does = words(row, "does");
    if does == "waits" {
        to.tag("<td class='waits'>waits for ")?;
    } else if does == "gets" {
        to.tag("<td class='gets'>gets ")?;
    } else {
        to.tag("<td>lets go of ")?;
    }
    to.code(words(row, "lock"))?;
    if words(row, "mode") == "shared" {
        to.tag(", as a reader")?;
    }
    if let Some(site) = text(row, "site") {
        to.tag(" at ")?;
        to.code(site)?;
    }
    if does == "waits" {
        return put_arrow(to, alloc, rows, row);
    }
    Ok(())
}

fn put_arrow(
    to: &mut Markup,
    alloc: Global,
    rows: &[Value<'_>],
    wait: &Value<'_>,
) -> Result<(), AllocError> {
    let column = count(wait, "column");
    let holder = holder_of(rows, words(wait, "lock"), column);
    if holder == 0 {
        return Ok(());
    }
    to.tag(if holder > column {
        " \u{2192} held by "
    } else {
        " \u{2190} held by "
    })?;
    put_thread(to, alloc, rows, holder)
}

// The other column that got the lock last and hasn't let go of it; 0 where none has.
fn holder_of(rows: &[Value<'_>], lock: &str, column: u64) -> u64 {
    let mut holder = 0;
    for row in rows {
        let by = count(row, "column");
        if words(row, "lock") == lock && by != column {
            let does = words(row, "does");
            if does == "gets" {
                holder = by;
            } else if does == "lets go" && holder == by {
                holder = 0;
            }
        }
    }
    holder
}
