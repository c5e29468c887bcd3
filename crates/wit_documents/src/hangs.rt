//! How a steered run hung, as SARIF has it.

use crate::flows::{Step, end_thread, put_step};
use crate::locations::{Said, Sources, put_message};
use crate::members::{begin, close, close_list, open_list};
use crate::places::is_place;
use crate::reading::{digits, list, member, text, words};
use json::{Pretty, Value};
use std::alloc::{AllocError, Global};

/// How it hung in a steered run.
pub(crate) fn put_hang(
    out: &mut Pretty,
    alloc: Global,
    sources: &Sources<'_, '_>,
    confirmed: &Value<'_>,
) -> Result<(), AllocError> {
    if digits(confirmed, "run").is_none() {
        return Ok(());
    }
    begin(out)?;
    put_message(out, alloc, "message", words(confirmed, "text"))?;
    open_list(out, "threadFlows")?;
    for thread in list(confirmed, "waits") {
        put_hung(out, alloc, sources, thread)?;
    }
    close_list(out)?;
    close(out)
}

// What a thread of a hang did: it took the one lock, and waits for the other.
fn put_hung(
    out: &mut Pretty,
    alloc: Global,
    sources: &Sources<'_, '_>,
    thread: &Value<'_>,
) -> Result<(), AllocError> {
    let mut label = String::from_str(alloc, "thread ")?;
    if let Some(number) = digits(thread, "thread") {
        label.push_str(number)?;
    }
    begin(out)?;
    put_message(out, alloc, "message", &label)?;
    open_list(out, "locations")?;
    if text(thread, "took").is_some() {
        put_deed(out, alloc, sources, thread, Deed::TAKEN)?;
    }
    put_deed(out, alloc, sources, thread, Deed::WAITED_FOR)?;
    end_thread(out)
}

// Under which names a deed of a thread stands, and what is said of it.
#[derive(Clone, Copy, Drop)]
struct Deed {
    lock: &'static str,
    place: &'static str,
    words: &'static str,
}

impl Deed {
    const TAKEN: Deed = Deed {
        lock: "took",
        place: "took_place",
        words: "\" is taken",
    };

    const WAITED_FOR: Deed = Deed {
        lock: "waits_for",
        place: "waits_place",
        words: "\" is waited for",
    };
}

fn put_deed(
    out: &mut Pretty,
    alloc: Global,
    sources: &Sources<'_, '_>,
    thread: &Value<'_>,
    deed: Deed,
) -> Result<(), AllocError> {
    let Some(place) = member(thread, deed.place) else {
        return Ok(());
    };
    if !is_place(place) {
        return Ok(());
    }
    let mut said = String::from_str(alloc, "\"")?;
    said.push_str(words(thread, deed.lock))?;
    said.push_str(deed.words)?;
    let said = Said {
        function: None,
        message: Some(said.as_str()),
    };
    put_step(
        out,
        alloc,
        sources,
        place,
        said,
        Step {
            is_lock: true,
            depth: 0,
        },
    )
}
