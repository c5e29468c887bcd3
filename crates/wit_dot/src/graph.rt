//! A graph of dot: types as boxes, and arrows between them.

ghost use Rattle.std.specs.Prelude.{◌≡◌, string_bytes, OnOk};
ghost use Rattle.wit_dot.specs.Graphs.{arrow_after};

use crate::arrows::{Arrow, Looks};
use crate::quotes::put_quoted;
use std::alloc::AllocError;

// More is no picture that somebody reads.
const ARROWS_MOST: usize = 200;

/// Which arrows of several are drawn.
#[derive(Clone, Copy, Debug, Drop, PartialEq, Eq)]
pub(crate) enum Drawn {
    /// All but those from a type to itself.
    Orders,
    /// At most 200, those of reports first.
    Few,
}

/// Adds the graph of these arrows.
///
/// # Errors
/// Want of memory alone, as of all that follow.
pub(crate) fn put_graph(
    to: &mut String,
    arrows: &[Arrow<'_>],
    drawn: Drawn,
) -> Result<(), AllocError> {
    to.push_str("digraph orders {\n    node [shape=box]\n    edge [fontsize=10]\n")?;
    match drawn {
        Drawn::Orders => put_orders(to, arrows)?,
        Drawn::Few => put_few(to, arrows)?,
    }
    to.push_str("}\n")
}

fn put_orders(to: &mut String, arrows: &[Arrow<'_>]) -> Result<(), AllocError> {
    for arrow in arrows {
        if arrow.from != arrow.to {
            put_arrow(to, arrow)?;
        }
    }
    Ok(())
}

fn put_few(to: &mut String, arrows: &[Arrow<'_>]) -> Result<(), AllocError> {
    if arrows.len() <= ARROWS_MOST {
        for arrow in arrows {
            put_arrow(to, arrow)?;
        }
        return Ok(());
    }
    let reported = put_first(to, arrows, true, ARROWS_MOST)?;
    put_first(to, arrows, false, reported)?;
    Ok(())
}

// At most so many of those that are of reports, or of the others; and how many more there may be.
fn put_first(
    to: &mut String,
    arrows: &[Arrow<'_>],
    is_reported: bool,
    most: usize,
) -> Result<usize, AllocError> {
    let mut left = most;
    for arrow in arrows {
        if left > 0 && (arrow.looks != Looks::Plain) == is_reported {
            put_arrow(to, arrow)?;
            left -= 1;
        }
    }
    Ok(left)
}

fn put_arrow(to: &mut String, arrow: &Arrow<'_>) -> Result<(), AllocError> {
    let looks = match arrow.looks {
        Looks::Plain => "\"]\n",
        Looks::Broken => "\", color=red]\n",
        Looks::Reported => "\", color=red, style=dashed]\n",
    };
    put_line(to, arrow, looks)
}

fn put_line(to: &mut String, arrow: &Arrow<'_>, looks: &str) -> Result<(), AllocError>
    ensures { OnOk result (string_bytes to.new ≡ arrow_after (string_bytes to.old)
        arrow.now.from.now arrow.now.to.now arrow.now.place.now looks.now) }
{
    to.push_str("    \"")?;
    put_quoted(to, arrow.from)?;
    to.push_str("\" -> \"")?;
    put_quoted(to, arrow.to)?;
    to.push_str("\" [label=\" ")?;
    put_quoted(to, arrow.place)?;
    to.push_str(looks)
}
