//! The page as a whole.

use crate::cards::put_item;
use crate::contents::Contents;
use crate::list::write_list;
use crate::looks::LOOKS;
use crate::markup::Markup;
use crate::orders::write_orders;
use crate::sections::{Known, Section, write_reports};
use crate::sources::sources_of;
use crate::threads::write_threads;
use crate::workings::WORKINGS;
use json::Scratch;
use std::alloc::{AllocError, Global};
use std::io::Write;
use wit_documents::{DocumentError, Items, KINDS, Kind, Outline};

/// Writes the page of a report. It is handed over card by card, and each report is read where it is written: once for
/// the list, and once for its card.
///
/// # Errors
/// `Memory` where a growth was refused, `Write` where it can't be written: what was written is a beginning of it.
pub fn write_page<W: Write>(
    alloc: Global,
    findings: &Outline<'_>,
    output: &mut W,
) -> Result<(), DocumentError> {
    let contents = Contents::of(alloc, findings.list("reports"))?;
    let sources = sources_of(alloc, findings)?;
    let known = Known {
        findings,
        contents: &contents,
        sources: sources.as_slice(),
    };
    let mut to = Markup::new(alloc);
    put_beginning(&mut to, findings)?;
    put_header(&mut to, alloc, &known)?;
    write_list(&mut to, alloc, &known, output)?;
    put_finder(&mut to, alloc, &known)?;
    write_reports(&mut to, alloc, &known, output)?;
    write_orders(&mut to, alloc, findings.list("processes"), output)?;
    to.hand_over(output)?;
    write_threads(&mut to, alloc, findings.list("processes"), output)?;
    put_end(&mut to, alloc, findings)?;
    to.hand_over(output)
}

fn put_beginning(to: &mut Markup, findings: &Outline<'_>) -> Result<(), AllocError> {
    to.tag("<!DOCTYPE html>\n<html lang='en'>\n<head>\n<meta charset='utf-8'>\n")?;
    // By their sums the browser knows the page's own script and looks: it runs no other, and fetches nothing.
    to.tag(
        "<meta http-equiv='Content-Security-Policy' content=\"default-src 'none'; img-src data:; style-src 'sha256-Bh91y04biHhiIM7TNqFSW2kQ+PjqSmmjkoiy19r2nvs='; script-src 'sha256-VICOXQsLqrfHmJWSVG35wvLRYgIKsmZ4zgbXHC+ftTw='; base-uri 'none'; form-action 'none'\">\n",
    )?;
    to.tag(
        "<meta name='viewport' content='width=device-width, initial-scale=1'>\n<meta name='color-scheme' content='light dark'>\n<link rel='icon' href='data:,'>\n<title>Lock orders of ",
    )?;
    to.text(findings.words("program"))?;
    to.tag("</title>\n<style>")?;
    to.tag(LOOKS)?;
    to.tag("</style>\n</head>\n<body>\n<a class='skip' href='#main'>To the reports</a>\n")
}

fn put_header(to: &mut Markup, alloc: Global, known: &Known<'_, '_>) -> Result<(), AllocError> {
    let (findings, contents) = (known.findings, known.contents);
    to.tag("<header>\n<h1>Lock orders of ")?;
    to.code(findings.words("program"))?;
    to.tag("</h1>\n")?;
    put_origin(to, findings)?;
    to.tag("<p class='summary'>")?;
    to.text(findings.words("summary"))?;
    to.tag("</p>\n<nav aria-label='Contents'><ul class='contents'>\n")?;
    put_entry(
        to,
        alloc,
        "<li><a href='#all'>All reports</a> (",
        findings.list("reports").len(),
    )?;
    let circles = contents.count_in(Section::Circles);
    put_entry(to, alloc, "<li><a href='#circles'>Circles</a> (", circles)?;
    let plain = contents.count_in(Section::Reports);
    put_entry(to, alloc, "<li><a href='#reports'>Reports</a> (", plain)?;
    let errors = contents.count_in(Section::Errors);
    put_entry(to, alloc, "<li><a href='#errors'>Errors</a> (", errors)?;
    let silenced = contents.count_in(Section::Silenced);
    put_entry(
        to,
        alloc,
        "<li><a href='#silenced'>Silenced</a> (",
        silenced,
    )?;
    to.tag(
        "<li><a href='#orders'>Orders</a></li>\n<li><a href='#threads'>Threads</a></li>\n<li><a href='#told'>What was told</a></li>\n</ul></nav>\n</header>\n<main id='main'>\n",
    )
}

fn put_entry(
    to: &mut Markup,
    alloc: Global,
    link: &'static str,
    count: usize,
) -> Result<(), AllocError> {
    if count == 0 {
        return Ok(());
    }
    to.tag(link)?;
    to.number(alloc, count)?;
    to.tag(")</li>\n")
}

// Which command made the report, of which version, when, and what it ran.
fn put_origin(to: &mut Markup, findings: &Outline<'_>) -> Result<(), AllocError> {
    to.tag("<p class='origin'>")?;
    to.text(findings.words("command"))?;
    if let Some(version) = findings.text("record") {
        to.tag(" ")?;
        to.text(version)?;
    }
    if let Some(ended) = findings.text("ended_here") {
        to.tag(", ")?;
        to.text(ended)?;
    }
    if let Some(run) = findings.text("words") {
        to.tag(": ")?;
        to.code(run)?;
    }
    to.tag("</p>\n")
}

fn put_finder(to: &mut Markup, alloc: Global, known: &Known<'_, '_>) -> Result<(), AllocError> {
    if known.findings.list("reports").is_empty() {
        return Ok(());
    }
    let types = known.contents.types.as_slice();
    to.tag(
        "<div class='finder' role='search' aria-label='Find reports'>\n<label class='words'>Words: types, locks, files, functions<input type='search' id='words' autocomplete='off'></label>\n<label>Kind<select id='kind'><option value=''>all</option>\n",
    )?;
    for kind in KINDS {
        to.tag("<option value='")?;
        to.tag(kind.word())?;
        to.tag("'>")?;
        to.tag(kind.name())?;
        to.tag("</option>\n")?;
    }
    to.tag("</select></label>\n<label>Type<select id='type'><option value=''>all</option>\n")?;
    for number in 0..types.len() {
        to.tag("<option value='")?;
        to.number(alloc, number)?;
        to.tag("'>")?;
        to.text(types[number].as_str())?;
        to.tag("</option>\n")?;
    }
    to.tag("</select></label>\n<p class='count' id='count' role='status'></p>\n</div>\n")
}

fn put_end(to: &mut Markup, alloc: Global, findings: &Outline<'_>) -> Result<(), AllocError> {
    to.tag("<section id='told'><h2>What was told</h2>\n<ul class='told'>\n")?;
    put_told(to, alloc, findings.list("told"))?;
    to.tag("</ul></section>\n</main>\n<footer><p>The page ")?;
    to.text(findings.words("command"))?;
    to.tag("(1) says what the last line means.</p></footer>\n<script>")?;
    to.tag(WORKINGS)?;
    to.tag("</script>\n</body>\n</html>\n")
}

fn put_told(to: &mut Markup, alloc: Global, told: Items<'_>) -> Result<(), AllocError> {
    let mut scratch = Scratch::new(alloc);
    for number in 0..told.len() {
        let line = told.read(alloc, number, &mut scratch)?;
        put_item(to, &line)?;
    }
    Ok(())
}
