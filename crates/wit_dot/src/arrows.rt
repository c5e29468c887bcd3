//! The arrows of a report, and of a process: from what was held to what was asked for.

use json::Value;
use std::alloc::{AllocError, Global};
use wit_documents::places::place_name;
use wit_documents::reading::{count, list, member, text, truth, words};
use wit_documents::{Kind, kind_of};

/// How an arrow is drawn.
#[derive(Clone, Copy, Debug, Drop, PartialEq, Eq)]
pub(crate) enum Looks {
    /// An order.
    Plain,
    /// An order that a report goes against: red.
    Broken,
    /// A request that was reported: red and dashed.
    Reported,
}

/// An arrow from one type to another, or to the same.
#[derive(Clone, Copy, Drop)]
pub(crate) struct Arrow<'a> {
    /// What was held.
    pub(crate) from: &'a str,
    /// What was asked for.
    pub(crate) to: &'a str,
    /// Where that was.
    pub(crate) place: &'a str,
    /// How it is drawn.
    pub(crate) looks: Looks,
}

/// The orders of a process.
///
/// # Errors
/// Want of memory alone, as of all that follow.
pub(crate) fn arrows_of_process<'a>(
    alloc: Global,
    process: &Value<'a>,
) -> Result<Vec<Arrow<'a>>, AllocError> {
    let mut arrows = Vec::new(alloc);
    for order in list(process, "orders") {
        let looks = if truth(order, "reversal") {
            Looks::Reported
        } else if truth(order, "broken") {
            Looks::Broken
        } else {
            Looks::Plain
        };
        add(
            &mut arrows,
            text(order, "from"),
            text(order, "to"),
            order,
            looks,
        )?;
    }
    Ok(arrows)
}

/// What the report's threads did against an order, or to wait for one another, behind the steps that
/// established the order. A report of another kind has none.
pub(crate) fn arrows_of_report<'a>(
    alloc: Global,
    report: &Value<'a>,
) -> Result<Vec<Arrow<'a>>, AllocError> {
    let mut arrows = Vec::new(alloc);
    for step in list(report, "established") {
        add(
            &mut arrows,
            text(step, "from"),
            text(step, "to"),
            step,
            Looks::Broken,
        )?;
    }
    if let Some(asked) = member(report, "asked") {
        let held = held_type(report, asked);
        add(
            &mut arrows,
            held,
            text(asked, "type"),
            asked,
            Looks::Reported,
        )?;
    }
    add_waits(&mut arrows, list(report, "waits"))?;
    Ok(arrows)
}

// The type that the lock which was asked for is at odds with.
fn held_type<'a>(report: &Value<'a>, asked: &Value<'a>) -> Option<&'a str> {
    match kind_of(report) {
        Kind::Reversal => match list(report, "held").last() {
            Some(held) => text(held, "type"),
            None => None,
        },
        Kind::Duplicate => text(asked, "type"),
        _ => None,
    }
}

// From all that the thread of a seat holds to what it waits for.
fn add_waits<'a>(arrows: &mut Vec<Arrow<'a>>, lines: &[Value<'a>]) -> Result<(), AllocError> {
    for wait in lines {
        if words(wait, "does") != "waits" {
            continue;
        }
        for held in lines {
            if words(held, "does") == "holds" && count(held, "seat") == count(wait, "seat") {
                add(
                    arrows,
                    text(held, "lock"),
                    text(wait, "lock"),
                    wait,
                    Looks::Reported,
                )?;
            }
        }
    }
    Ok(())
}

fn add<'a>(
    arrows: &mut Vec<Arrow<'a>>,
    from: Option<&'a str>,
    to: Option<&'a str>,
    place: &Value<'a>,
    looks: Looks,
) -> Result<(), AllocError> {
    if let (Some(from), Some(to)) = (from, to) {
        arrows.push(Arrow {
            from,
            to,
            place: place_name(place),
            looks,
        })?;
    }
    Ok(())
}
