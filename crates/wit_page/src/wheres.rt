//! Where something was: the place, who was there, the source around it, and the callers.

use crate::markup::Markup;
use crate::sources::{Source, source_of};
use json::{Scratch, Value};
use std::alloc::{AllocError, Global};
use wit_documents::places::{has_line, is_code, is_place, place_name};
use wit_documents::reading::{count, digits, item, list, member, text, truth, words};

// So many lines of a source are shown before and after a place.
const AROUND: u64 = 3;

/// What the places of a report are looked up in.
#[derive(Clone, Copy, Drop)]
pub(crate) struct Shown<'v, 'a> {
    /// The sources, with lines of theirs.
    pub(crate) sources: &'v [Source<'a>],
    /// Whether it is known when the report's program was built.
    pub(crate) is_built: bool,
}

/// Where that is, who was there, the source around it, and the callers.
///
/// # Errors
/// Want of memory alone, as of all that follow.
pub(crate) fn put_where(
    to: &mut Markup,
    alloc: Global,
    shown: &Shown<'_, '_>,
    place: &Value<'_>,
) -> Result<(), AllocError> {
    let callers = list(place, "callers");
    to.tag("<p>")?;
    if is_code(place) {
        to.tag("in ")?;
    } else if is_place(place) {
        to.tag("at ")?;
    }
    to.code(place_name(place))?;
    if !is_code(place) {
        put_function(to, callers)?;
    }
    if let Some(thread) = member(place, "thread") {
        put_thread(to, thread)?;
    }
    to.tag("</p>\n")?;
    put_source(to, alloc, shown, place)?;
    put_callers(to, alloc, callers)
}

fn put_function(to: &mut Markup, callers: &[Value<'_>]) -> Result<(), AllocError> {
    let Some(frame) = item(callers, 0) else {
        return Ok(());
    };
    match text(frame, "function") {
        Some(function) => {
            to.tag(" in ")?;
            to.code(function)
        }
        None => Ok(()),
    }
}

fn put_thread(to: &mut Markup, thread: &Value<'_>) -> Result<(), AllocError> {
    to.tag(", by thread ")?;
    if let Some(number) = digits(thread, "number") {
        to.text(number)?;
    }
    if let Some(name) = text(thread, "name") {
        to.tag(" (")?;
        to.code(name)?;
        to.tag(")")?;
    }
    if let Some(made) = text(thread, "made") {
        put_made(to, thread, made)?;
    }
    Ok(())
}

// Where the thread was made. A place without a line has the function itself.
fn put_made(to: &mut Markup, thread: &Value<'_>, made: &str) -> Result<(), AllocError> {
    if let Some(name) = text(thread, "made_in") {
        to.tag(", made in ")?;
        return to.code(name);
    }
    if let Some(maker) = text(thread, "maker") {
        to.tag(", made by ")?;
        to.code(maker)?;
        to.tag(" at ")?;
    } else {
        to.tag(", made at ")?;
    }
    to.code(made)
}

fn put_source(
    to: &mut Markup,
    alloc: Global,
    shown: &Shown<'_, '_>,
    place: &Value<'_>,
) -> Result<(), AllocError> {
    if !is_place(place) {
        return Ok(());
    }
    if !has_line(place) {
        return to.tag(
            "<p class='nosource'>Its line isn't known: the object has no debug information, or nothing reads it.</p>\n",
        );
    }
    match line_of(shown, place) {
        Some((source, number)) => {
            put_excerpt(to, alloc, source, number)?;
            put_newer(to, shown, source)
        }
        None => to.tag("<p class='nosource'>Its source isn't here.</p>\n"),
    }
}

/// The one line of the source; nothing where it isn't known.
///
/// # Errors
/// Want of memory alone.
pub(crate) fn put_line(
    to: &mut Markup,
    alloc: Global,
    shown: &Shown<'_, '_>,
    place: &Value<'_>,
) -> Result<(), AllocError> {
    if !has_line(place) {
        return Ok(());
    }
    let Some((source, number)) = line_of(shown, place) else {
        return Ok(());
    };
    let mut scratch = Scratch::new(alloc);
    let row = source.lines().read(alloc, number, &mut scratch)?;
    to.tag("<code class='line'>")?;
    to.text(words(&row, "text"))?;
    to.tag("</code>")?;
    put_newer(to, shown, source)
}

fn put_newer(
    to: &mut Markup,
    shown: &Shown<'_, '_>,
    source: &Source<'_>,
) -> Result<(), AllocError> {
    if shown.is_built && source.is_newer() {
        return to.tag(
            "<p class='nosource'>The file is newer than the program: its lines may have moved.</p>\n",
        );
    }
    Ok(())
}

// The source of the place, and which of its lines the place is in.
fn line_of<'v, 'a>(shown: &Shown<'v, 'a>, place: &Value<'_>) -> Option<(&'v Source<'a>, usize)> {
    let Some(source) = source_of(shown.sources, words(place, "file")) else {
        return None;
    };
    match source.place_of(count(place, "line")) {
        Some(number) => Some((source, number)),
        None => None,
    }
}

fn is_near(number: u64, line: u64) -> bool {
    number <= line.saturating_add(AROUND) && line <= number.saturating_add(AROUND)
}

// The lines around that one of the source.
fn put_excerpt(
    to: &mut Markup,
    alloc: Global,
    source: &Source<'_>,
    at: usize,
) -> Result<(), AllocError> {
    let (lines, numbers) = (source.lines(), source.numbers());
    let line = if at < numbers.len() { numbers[at] } else { 0 };
    let mut scratch = Scratch::new(alloc);
    to.tag("<pre class='source' tabindex='0' role='region' aria-label='")?;
    to.text(source.file())?;
    to.tag(", around its line ")?;
    put_digits(to, &lines.read(alloc, at, &mut scratch)?)?;
    to.tag("'><code>")?;
    for place in 0..numbers.len() {
        if is_near(numbers[place], line) {
            let row = lines.read(alloc, place, &mut scratch)?;
            put_row(to, &row, numbers[place] == line)?;
        }
    }
    to.tag("</code></pre>\n")
}

fn put_digits(to: &mut Markup, row: &Value<'_>) -> Result<(), AllocError> {
    match digits(row, "line") {
        Some(number) => to.text(number),
        None => Ok(()),
    }
}

fn put_row(to: &mut Markup, row: &Value<'_>, is_marked: bool) -> Result<(), AllocError> {
    to.tag(if is_marked { "<mark" } else { "<span" })?;
    to.tag(" class='row' data-line='")?;
    put_digits(to, row)?;
    to.tag("'>")?;
    to.text(words(row, "text"))?;
    to.tag(if is_marked { "\n</mark>" } else { "\n</span>" })
}

fn put_callers(to: &mut Markup, alloc: Global, callers: &[Value<'_>]) -> Result<(), AllocError> {
    if callers.len() < 2 {
        return Ok(());
    }
    to.tag("<details><summary>Callers (")?;
    to.number(alloc, callers.len() - 1)?;
    to.tag(")</summary>\n<ol class='callers'>\n")?;
    for number in 1..callers.len() {
        put_caller(to, &callers[number])?;
    }
    to.tag("</ol></details>\n")
}

fn put_caller(to: &mut Markup, frame: &Value<'_>) -> Result<(), AllocError> {
    to.tag("<li>")?;
    if let Some(function) = text(frame, "function") {
        if !is_code(frame) {
            to.code(function)?;
            to.tag(" at ")?;
        }
    }
    to.code(place_name(frame))?;
    to.tag("</li>\n")
}
