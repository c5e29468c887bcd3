//! The locks of a report, and the orders that it goes against.

use crate::cards::Card;
use crate::markup::Markup;
use crate::wheres::{Shown, put_where};
use json::Value;
use std::alloc::{AllocError, Global};
use wit_documents::places::{is_code, lock_number};
use wit_documents::reading::{list, member, words};

/// What is held beside what is asked for.
///
/// # Errors
/// Want of memory alone, as of all that follow.
pub(crate) fn put_locks(
    to: &mut Markup,
    alloc: Global,
    card: &Card<'_, '_>,
) -> Result<(), AllocError> {
    let Some(asked) = member(card.report, "asked") else {
        return Ok(());
    };
    let held = list(card.report, "held");
    to.tag("<div class='columns'>\n<div>\n")?;
    for number in 0..held.len() {
        to.tag("<section class='place held'><h4>")?;
        to.tag(if number + 1 == held.len() {
            "Held"
        } else {
            "Held, and taken before that"
        })?;
        put_lock(to, alloc, &card.shown, &held[number])?;
    }
    to.tag("</div>\n<div>\n<section class='place asked'><h4>Asked for")?;
    put_lock(to, alloc, &card.shown, asked)?;
    to.tag("</div>\n</div>\n")
}

// A lock, whose heading stands open.
fn put_lock(
    to: &mut Markup,
    alloc: Global,
    shown: &Shown<'_, '_>,
    lock: &Value<'_>,
) -> Result<(), AllocError> {
    let (name, kind) = (words(lock, "lock"), words(lock, "type"));
    let numbered = if is_code(lock) {
        lock_number(name, kind)
    } else {
        None
    };
    to.tag("</h4>\n<p>")?;
    if let Some(number) = numbered {
        to.code(kind)?;
        to.tag(" lock ")?;
        to.text(number)?;
    } else {
        to.code(name)?;
    }
    to.tag(", ")?;
    to.text(words(lock, "class"))?;
    if numbered.is_none() && name != kind {
        to.tag(" of type ")?;
        to.code(kind)?;
    }
    to.tag("</p>\n")?;
    put_where(to, alloc, shown, lock)?;
    to.tag("</section>\n")
}

/// The orders by which the opposite one was established.
pub(crate) fn put_steps(
    to: &mut Markup,
    alloc: Global,
    card: &Card<'_, '_>,
) -> Result<(), AllocError> {
    let steps = list(card.report, "established");
    if steps.is_empty() {
        return Ok(());
    }
    to.tag("<h4 class='part'>How the opposite order was established</h4>\n<ol class='steps'>\n")?;
    for step in steps {
        to.tag("<li><p>")?;
        to.code(words(step, "from"))?;
        to.tag(" was held, ")?;
        to.code(words(step, "to"))?;
        to.tag(" was asked for</p>\n")?;
        put_where(to, alloc, &card.shown, step)?;
        to.tag("</li>\n")?;
    }
    to.tag("</ol>\n")
}

/// The one place of an error.
pub(crate) fn put_error(
    to: &mut Markup,
    alloc: Global,
    card: &Card<'_, '_>,
) -> Result<(), AllocError> {
    let Some(error) = member(card.report, "error") else {
        return Ok(());
    };
    to.tag("<section class='place asked'><h4>Lock ")?;
    to.code(words(error, "lock"))?;
    to.tag("</h4>\n")?;
    put_where(to, alloc, &card.shown, error)?;
    to.tag("</section>\n")
}
