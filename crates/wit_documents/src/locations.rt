//! Places as SARIF has them.

use crate::members::{begin, close, close_list, open, open_list, put_number, put_text};
use crate::outline::Outline;
use crate::places::{has_line, is_place};
use crate::plain::put_plain;
use crate::reading::{digits, words};
use crate::uris::put_uri;
use json::{Pretty, Value};
use std::alloc::{AllocError, Global};

/// Where sources are.
#[derive(Clone, Copy, Drop)]
pub(crate) struct Sources<'v, 'a> {
    /// The folder in which names begin that aren't absolute.
    pub(crate) folder: Option<&'v str>,
    /// The files, with their own names.
    pub(crate) files: &'v [Outline<'a>],
}

/// What is said of a location besides its place.
#[derive(Clone, Copy, Drop)]
pub(crate) struct Said<'s> {
    /// The function there.
    pub(crate) function: Option<&'s str>,
    /// What is there to say of it.
    pub(crate) message: Option<&'s str>,
}

/// The members of a location, whose object stands open: they end it.
///
/// # Errors
/// Want of memory alone, as of all that follow.
pub(crate) fn put_location(
    out: &mut Pretty,
    alloc: Global,
    sources: &Sources<'_, '_>,
    place: &Value<'_>,
    said: Said<'_>,
) -> Result<(), AllocError> {
    if has_line(place) {
        put_file(out, alloc, sources, place)?;
    } else if is_place(place) {
        put_object(out, alloc, place)?;
    }
    if let Some(function) = said.function {
        put_function(out, function)?;
    }
    if let Some(message) = said.message {
        put_message(out, alloc, "message", message)?;
    }
    close(out)
}

/// A message, whose text is no more than a text.
pub(crate) fn put_message(
    out: &mut Pretty,
    alloc: Global,
    name: &str,
    words: &str,
) -> Result<(), AllocError> {
    let mut plain = String::new(alloc);
    put_plain(&mut plain, words)?;
    put_whole_message(out, name, &plain)
}

/// A message of a text that may have links.
pub(crate) fn put_whole_message(
    out: &mut Pretty,
    name: &str,
    words: &str,
) -> Result<(), AllocError> {
    open(out, name)?;
    put_text(out, "text", words)?;
    close(out)
}

fn put_function(out: &mut Pretty, function: &str) -> Result<(), AllocError> {
    open_list(out, "logicalLocations")?;
    begin(out)?;
    put_text(out, "fullyQualifiedName", function)?;
    put_text(out, "kind", "function")?;
    close(out)?;
    close_list(out)
}

// A place with a line.
fn put_file(
    out: &mut Pretty,
    alloc: Global,
    sources: &Sources<'_, '_>,
    place: &Value<'_>,
) -> Result<(), AllocError> {
    open(out, "physicalLocation")?;
    put_artifact(out, alloc, sources, words(place, "file"))?;
    open(out, "region")?;
    put_number(out, "startLine", line_of(place))?;
    close(out)?;
    close(out)
}

fn line_of<'a>(place: &Value<'a>) -> &'a str {
    match digits(place, "line") {
        Some(line) => line,
        None => "1",
    }
}

// What is in the folder is named by the way from there.
fn put_artifact(
    out: &mut Pretty,
    alloc: Global,
    sources: &Sources<'_, '_>,
    file: &str,
) -> Result<(), AllocError> {
    let path = own_name(sources.files, file);
    let is_whole = path.starts_with('/');
    let mut uri = String::from_str(alloc, if is_whole { "file://" } else { "" })?;
    put_uri(&mut uri, path)?;
    open(out, "artifactLocation")?;
    put_text(out, "uri", &uri)?;
    if !is_whole && sources.folder.is_some() {
        put_text(out, "uriBaseId", "%SRCROOT%")?;
    }
    close(out)
}

// The file's own name, without steps up and links, where it is there.
fn own_name<'n>(files: &'n [Outline<'_>], file: &'n str) -> &'n str {
    for each in files {
        if each.words("file") == file {
            return match each.text("path") {
                Some(path) => path,
                None => file,
            };
        }
    }
    file
}

// A place without a line.
fn put_object(out: &mut Pretty, alloc: Global, place: &Value<'_>) -> Result<(), AllocError> {
    let mut uri = String::new(alloc);
    put_uri(&mut uri, words(place, "object"))?;
    open(out, "physicalLocation")?;
    if let Some(offset) = address_of(place) {
        open(out, "address")?;
        put_number(out, "relativeAddress", offset)?;
        close(out)?;
    }
    open(out, "artifactLocation")?;
    put_text(out, "uri", &uri)?;
    close(out)?;
    close(out)
}

// An offset that SARIF has room for.
fn address_of<'a>(place: &Value<'a>) -> Option<&'a str> {
    match place.get("offset") {
        Some(offset) => match offset.as_i64() {
            Some(_) => offset.as_number(),
            None => None,
        },
        None => None,
    }
}
