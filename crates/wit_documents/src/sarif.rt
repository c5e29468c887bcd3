//! Reports as SARIF 2.1.0, for what shows the results of analyses beside the sources.

use crate::kinds::{Kind, RULES, kind_of};
use crate::locations::{Sources, put_message};
use crate::log::Log;
use crate::members::{begin, close, close_list, open, open_list, put_item, put_text, put_truth};
use crate::outline::Outline;
use crate::reading::{item, list, words};
use crate::results::put_result;
use crate::uris::put_uri;
use json::{Pretty, Scratch, Token, Value};
use std::alloc::{AllocError, Global};

/// The JSON report as a log of SARIF, with one run and a line feed at its end.
///
/// # Errors
/// Want of memory alone, as of all that follow.
pub(crate) fn sarif_log(alloc: Global, findings: &Outline<'_>) -> Result<Log, AllocError> {
    let files = files_of(alloc, findings)?;
    let sources = Sources {
        folder: findings.text("directory"),
        files: files.as_slice(),
    };
    let mut log = Log::new(alloc)?;
    log.add(alloc, beginning(alloc, findings)?, 0)?;
    let is_any = add_results(&mut log, alloc, &sources, findings)?;
    log.add(alloc, ending(alloc, is_any)?, frame_length(alloc, is_any)?)?;
    Ok(log)
}

fn files_of<'v>(alloc: Global, findings: &'v Outline<'_>) -> Result<Vec<Outline<'v>>, AllocError> {
    let sources = findings.list("sources");
    let mut files = Vec::new(alloc);
    for number in 0..sources.len() {
        let file = sources.outline(alloc, number)?;
        files.push(file)?;
    }
    Ok(files)
}

// What stands before the first result.
fn beginning(alloc: Global, findings: &Outline<'_>) -> Result<Vec<u8>, AllocError> {
    let mut out = Pretty::new(alloc);
    begin(&mut out)?;
    put_text(
        &mut out,
        "$schema",
        "https://json.schemastore.org/sarif-2.1.0.json",
    )?;
    put_text(&mut out, "version", "2.1.0")?;
    open_list(&mut out, "runs")?;
    begin(&mut out)?;
    put_tool(&mut out, alloc, findings)?;
    if let Some(folder) = findings.text("directory") {
        open(&mut out, "originalUriBaseIds")?;
        put_folder(&mut out, alloc, "%SRCROOT%", folder)?;
        close(&mut out)?;
    }
    put_invocation(&mut out, alloc, findings)?;
    open_list(&mut out, "results")?;
    Ok(out.into_inner())
}

// What stands behind the last result, where there is any, in its frame.
fn ending(alloc: Global, is_any: bool) -> Result<Vec<u8>, AllocError> {
    let mut out = frame(alloc, is_any)?;
    close_list(&mut out)?;
    close(&mut out)?;
    close_list(&mut out)?;
    close(&mut out)?;
    let mut text = out.into_inner();
    text.push(b'\n')?;
    Ok(text)
}

// The frame by which a result is laid out: how deep it stands, and whether another one stands before it.
fn frame(alloc: Global, is_any: bool) -> Result<Pretty, AllocError> {
    let mut out = Pretty::new(alloc);
    begin(&mut out)?;
    open_list(&mut out, "runs")?;
    begin(&mut out)?;
    open_list(&mut out, "results")?;
    if is_any {
        out.token(Token::Null)?;
    }
    Ok(out)
}

fn frame_length(alloc: Global, is_any: bool) -> Result<usize, AllocError> {
    let text = frame(alloc, is_any)?.into_inner();
    Ok(text.len())
}

// The results. Whether there is one.
fn add_results(
    log: &mut Log,
    alloc: Global,
    sources: &Sources<'_, '_>,
    findings: &Outline<'_>,
) -> Result<bool, AllocError> {
    let reports = findings.list("reports");
    let ignore = findings.text("ignore");
    let mut scratch = Scratch::new(alloc);
    let mut before = Vec::new(alloc);
    let mut is_any = false;
    for number in 0..reports.len() {
        let report = reports.read(alloc, number, &mut scratch)?;
        let fingerprint = words(&report, "fingerprint");
        if kind_of(&report) != Kind::Other {
            let repeats = count_equal(before.as_slice(), fingerprint);
            let mut out = frame(alloc, is_any)?;
            put_result(&mut out, alloc, sources, &report, ignore, repeats)?;
            log.add(alloc, out.into_inner(), frame_length(alloc, is_any)?)?;
            is_any = true;
        }
        before.push(String::from_str(alloc, fingerprint)?)?;
    }
    Ok(is_any)
}

fn count_equal(fingerprints: &[String], fingerprint: &str) -> usize {
    let mut count: usize = 0;
    for each in fingerprints {
        if each.as_str() == fingerprint {
            count = count.saturating_add(1);
        }
    }
    count
}

// The URI of a folder, in which relative ones begin.
fn put_folder(out: &mut Pretty, alloc: Global, name: &str, folder: &str) -> Result<(), AllocError> {
    let mut uri = String::from_str(alloc, "file://")?;
    put_uri(&mut uri, folder)?;
    if !folder.ends_with('/') {
        uri.push('/')?;
    }
    open(out, name)?;
    put_text(out, "uri", &uri)?;
    close(out)
}

fn put_tool(out: &mut Pretty, alloc: Global, findings: &Outline<'_>) -> Result<(), AllocError> {
    open(out, "tool")?;
    open(out, "driver")?;
    put_text(out, "name", "record")?;
    put_text(out, "fullName", "Lanyardyuzu, recorder of lock orders")?;
    if let Some(version) = findings.text("record") {
        put_text(out, "version", version)?;
    }
    if let Some(kit) = findings.text("kit") {
        open(out, "properties")?;
        put_text(out, "kit", kit)?;
        close(out)?;
    }
    open_list(out, "rules")?;
    for kind in RULES {
        put_rule(out, alloc, kind)?;
    }
    close_list(out)?;
    close(out)?;
    close(out)
}

fn put_rule(out: &mut Pretty, alloc: Global, kind: Kind) -> Result<(), AllocError> {
    let is_certain = kind.is_certain();
    let level = if is_certain { "error" } else { "warning" };
    begin(out)?;
    put_text(out, "id", kind.rule())?;
    put_text(out, "name", kind.name())?;
    put_message(out, alloc, "shortDescription", kind.meaning())?;
    put_message(out, alloc, "fullDescription", kind.help())?;
    open(out, "help")?;
    put_text(out, "text", kind.help())?;
    put_text(out, "markdown", kind.help())?;
    close(out)?;
    open(out, "defaultConfiguration")?;
    put_text(out, "level", level)?;
    close(out)?;
    open(out, "properties")?;
    open_list(out, "tags")?;
    put_item(out, "concurrency")?;
    put_item(out, "deadlock")?;
    close_list(out)?;
    put_text(
        out,
        "precision",
        if is_certain { "very-high" } else { "medium" },
    )?;
    put_text(out, "problem.severity", level)?;
    close(out)?;
    close(out)
}

// What was told besides the reports, and what stopped the verifier.
fn put_invocation(
    out: &mut Pretty,
    alloc: Global,
    findings: &Outline<'_>,
) -> Result<(), AllocError> {
    open_list(out, "invocations")?;
    begin(out)?;
    put_truth(out, "executionSuccessful", !findings.truth("failed"))?;
    if let Some(ended) = findings.text("ended") {
        put_text(out, "endTimeUtc", ended)?;
    }
    if let Some(folder) = findings.text("directory") {
        put_folder(out, alloc, "workingDirectory", folder)?;
    }
    open_list(out, "toolExecutionNotifications")?;
    put_notifications(out, alloc, findings)?;
    close_list(out)?;
    close(out)?;
    close_list(out)
}

fn put_notifications(
    out: &mut Pretty,
    alloc: Global,
    findings: &Outline<'_>,
) -> Result<(), AllocError> {
    let mut scratch = Scratch::new(alloc);
    let told = findings.list("told");
    for number in 0..told.len() {
        let line = told.read(alloc, number, &mut scratch)?;
        if let Some(line) = line.as_str() {
            put_notification(out, alloc, "note", line)?;
        }
    }
    let reports = findings.list("reports");
    for number in 0..reports.len() {
        let report = reports.read(alloc, number, &mut scratch)?;
        if kind_of(&report) == Kind::Other {
            put_stop(out, alloc, &report)?;
        }
    }
    Ok(())
}

// The first line of a report that is of the recording.
fn put_stop(out: &mut Pretty, alloc: Global, report: &Value<'_>) -> Result<(), AllocError> {
    let Some(first) = item(list(report, "text"), 0) else {
        return Ok(());
    };
    match first.as_str() {
        Some(line) => put_notification(out, alloc, "error", line),
        None => Ok(()),
    }
}

fn put_notification(
    out: &mut Pretty,
    alloc: Global,
    level: &str,
    line: &str,
) -> Result<(), AllocError> {
    begin(out)?;
    put_text(out, "level", level)?;
    put_message(out, alloc, "message", line)?;
    close(out)
}
