//! Threads that wait for one another, or for themselves.

use crate::markup::Markup;
use crate::wheres::{Shown, put_where};
use json::Value;
use std::alloc::{AllocError, Global};
use wit_documents::reading::{count, digits, list, member, words};
use wit_documents::{Kind, kind_of};

/// Of a circle a column for each thread; of a thread that waits for itself what it holds beside what it waits for.
///
/// # Errors
/// Want of memory alone, as of all that follow.
pub(crate) fn put_waits(
    to: &mut Markup,
    alloc: Global,
    shown: &Shown<'_, '_>,
    report: &Value<'_>,
) -> Result<(), AllocError> {
    let lines = list(report, "waits");
    let is_itself = kind_of(report) == Kind::Itself;
    let mut is_any = false;
    for number in 0..lines.len() {
        let line = &lines[number];
        let seat = count(line, "seat");
        if !is_wait(line) || wait_of(&lines[..number], seat).is_some() {
            continue;
        }
        to.tag(if is_any {
            "<div>\n"
        } else {
            "<div class='columns'>\n<div>\n"
        })?;
        is_any = true;
        put_all_held(to, alloc, shown, lines, seat)?;
        if is_itself {
            to.tag("</div>\n<div>\n")?;
        }
        put_wait(to, alloc, shown, lines, line)?;
        to.tag("</div>\n")?;
    }
    to.tag(if is_any { "</div>\n" } else { "" })
}

fn is_wait(line: &Value<'_>) -> bool {
    words(line, "does") == "waits"
}

// What a thread of a circle waits for.
fn wait_of<'v, 'a>(lines: &'v [Value<'a>], seat: u64) -> Option<&'v Value<'a>> {
    for each in lines {
        if is_wait(each) && count(each, "seat") == seat {
            return Some(each);
        }
    }
    None
}

// The number of the thread of that seat.
fn thread_of<'a>(lines: &[Value<'a>], seat: u64) -> Option<&'a str> {
    match wait_of(lines, seat) {
        Some(wait) => match member(wait, "thread") {
            Some(thread) => digits(thread, "number"),
            None => None,
        },
        None => None,
    }
}

// A thread by its number, or by its seat where that isn't known.
fn put_waiter(
    to: &mut Markup,
    alloc: Global,
    lines: &[Value<'_>],
    seat: u64,
    names: (&'static str, &'static str),
) -> Result<(), AllocError> {
    match thread_of(lines, seat) {
        Some(number) => {
            to.tag(names.0)?;
            to.text(number)
        }
        None => {
            let digits = seat.to_string(alloc)?;
            to.tag(names.1)?;
            to.text(&digits)
        }
    }
}

fn put_all_held(
    to: &mut Markup,
    alloc: Global,
    shown: &Shown<'_, '_>,
    lines: &[Value<'_>],
    seat: u64,
) -> Result<(), AllocError> {
    for line in lines {
        if is_wait(line) || count(line, "seat") != seat {
            continue;
        }
        to.tag("<section class='place held'><h4>")?;
        put_waiter(to, alloc, lines, seat, ("Thread ", "Seat "))?;
        to.tag(" holds ")?;
        to.code(words(line, "lock"))?;
        to.tag("</h4>\n")?;
        put_where(to, alloc, shown, line)?;
        to.tag("</section>\n")?;
    }
    Ok(())
}

fn put_wait(
    to: &mut Markup,
    alloc: Global,
    shown: &Shown<'_, '_>,
    lines: &[Value<'_>],
    wait: &Value<'_>,
) -> Result<(), AllocError> {
    let holder = count(wait, "holder");
    to.tag("<section class='place asked'><h4>")?;
    put_waiter(to, alloc, lines, count(wait, "seat"), ("Thread ", "Seat "))?;
    to.tag(" waits for ")?;
    to.code(words(wait, "lock"))?;
    if holder > 0 {
        to.tag(", which ")?;
        put_waiter(to, alloc, lines, holder, ("thread ", "seat "))?;
        to.tag(" holds")?;
    }
    to.tag("</h4>\n")?;
    put_where(to, alloc, shown, wait)?;
    to.tag("</section>\n")
}
