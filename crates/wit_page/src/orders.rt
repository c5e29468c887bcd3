//! The orders of the processes: pictures, and tables.

use crate::graphs::Graphs;
use crate::markup::Markup;
use json::{Scratch, Value};
use std::alloc::{AllocError, Global};
use std::io::Write;
use wit_documents::places::place_name;
use wit_documents::reading::{text, truth, words};
use wit_documents::{DocumentError, Items, Outline};

// So many pictures and rows of orders are in a page; beyond it is said that there are more.
const PICTURES_MOST: usize = 8;

const ROWS_MOST: usize = 2000;

/// The section of orders.
///
/// # Errors
/// As of the page.
pub(crate) fn write_orders<W: Write>(
    to: &mut Markup,
    alloc: Global,
    processes: Items<'_>,
    output: &mut W,
) -> Result<(), DocumentError> {
    to.tag(
        "<section id='orders'><h2>Orders</h2>\n<p class='legend'>An arrow goes from the type that was held to the one that was asked for. <b>Red and dashed is what was reported, red alone the orders that it goes against.</b></p>\n",
    )?;
    let mut graphs = Graphs::new(alloc);
    for number in 0..processes.len() {
        let process = processes.outline(alloc, number)?;
        if graphs.add(alloc, processes, number, &process)? && graphs.len() <= PICTURES_MOST {
            write_process(to, alloc, &process, output)?;
        }
    }
    put_left(to, alloc, graphs.len())?;
    Ok(())
}

// How many graphs aren't drawn, of so many.
fn put_left(to: &mut Markup, alloc: Global, graphs: usize) -> Result<(), AllocError> {
    if graphs == 0 {
        to.tag("<p>No thread asked for a lock while it held another.</p>\n")?;
    }
    if graphs > PICTURES_MOST {
        to.tag("<p>")?;
        to.number(alloc, graphs - PICTURES_MOST)?;
        to.tag(" further processes have other orders, which aren't drawn.</p>\n")?;
    }
    to.tag("</section>\n")
}

fn write_process<W: Write>(
    to: &mut Markup,
    alloc: Global,
    process: &Outline<'_>,
    output: &mut W,
) -> Result<(), DocumentError> {
    let picture = Picture {
        drawn: process.text("picture"),
        description: process.text("description"),
        program: process.words("program"),
    };
    to.tag("<h3>")?;
    to.code(process.words("program"))?;
    if process.count("process") > 0 {
        to.tag(", process ")?;
        if let Some(number) = process.digits("process") {
            to.text(number)?;
        }
    }
    to.tag("</h3>\n")?;
    put_picture(to, "Picture", &picture)?;
    write_table(to, alloc, process, output)
}

/// A picture, where there is one, and what is said of it.
#[derive(Clone, Copy, Drop)]
pub(crate) struct Picture<'a> {
    drawn: Option<&'a str>,
    description: Option<&'a str>,
    program: &'a str,
}

/// The picture of a report.
pub(crate) fn picture_of<'a>(report: &Value<'a>) -> Picture<'a> {
    Picture {
        drawn: text(report, "picture"),
        description: text(report, "description"),
        program: words(report, "program"),
    }
}

/// The picture, where there is one: an image that runs no script and fetches nothing.
///
/// # Errors
/// Want of memory alone, as of all that follow.
pub(crate) fn put_picture(
    to: &mut Markup,
    label: &'static str,
    picture: &Picture<'_>,
) -> Result<(), AllocError> {
    let Some(drawn) = picture.drawn else {
        return Ok(());
    };
    to.tag("<div class='picture' tabindex='0' role='region' aria-label='")?;
    to.tag(label)?;
    to.tag("'><img alt='")?;
    put_alternative(to, picture)?;
    to.tag("' src='data:image/svg+xml,")?;
    to.uri(drawn)?;
    to.tag("'></div>\n")
}

// What the picture shows, in words.
fn put_alternative(to: &mut Markup, picture: &Picture<'_>) -> Result<(), AllocError> {
    match picture.description {
        Some(description) => to.text(description),
        None => {
            to.tag("The orders of ")?;
            to.text(picture.program)?;
            to.tag(", which the table has")
        }
    }
}

// The orders as a table, which stands open where there is no picture.
fn write_table<W: Write>(
    to: &mut Markup,
    alloc: Global,
    process: &Outline<'_>,
    output: &mut W,
) -> Result<(), DocumentError> {
    let orders = process.list("orders");
    to.tag(if process.text("picture").is_some() {
        "<details>"
    } else {
        "<details open>"
    })?;
    to.tag(
        "<summary>The orders as a table</summary>\n<div class='wide' tabindex='0' role='region' aria-label='Orders'><table>\n<thead><tr><th scope='col'>Held</th><th scope='col'>Asked for</th><th scope='col'>First at</th><th scope='col'>Is</th></tr></thead>\n<tbody>\n",
    )?;
    let mut scratch = Scratch::new(alloc);
    for number in 0..orders.len().min(ROWS_MOST) {
        let order = orders.read(alloc, number, &mut scratch)?;
        put_order(to, &order)?;
        to.hand_over_much(output)?;
    }
    to.tag("</tbody></table></div>\n")?;
    if orders.len() > ROWS_MOST {
        to.tag("<p>There are ")?;
        to.number(alloc, orders.len() - ROWS_MOST)?;
        to.tag(" more.</p>\n")?;
    }
    to.tag("</details>\n")?;
    Ok(())
}

fn put_order(to: &mut Markup, order: &Value<'_>) -> Result<(), AllocError> {
    to.tag("<tr><td>")?;
    to.code(words(order, "from"))?;
    to.tag("</td><td>")?;
    to.code(words(order, "to"))?;
    to.tag("</td><td>")?;
    to.code(place_name(order))?;
    to.tag(if truth(order, "reversal") {
        "</td><td class='bad'>reported</td></tr>\n"
    } else if truth(order, "broken") {
        "</td><td class='bad'>an order that a report goes against</td></tr>\n"
    } else {
        "</td><td>an order</td></tr>\n"
    })
}
