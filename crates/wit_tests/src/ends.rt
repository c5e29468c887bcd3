//! Replays that end early: beginnings of traces, readers and writers that fail, refused memory.

use crate::fakes::{Drip, Funnel};
use crate::traces::{
    BOTH_ORDERS, BOTH_ORDERS_REPORT, HEADER, replayed, replayed_through, status_is,
};
use std::alloc::{AllocError, Global};
use std::test::Fail;
use wit_model::Cause;
use wit_stream::{ReplayError, Summary};
use wit_trace::{BAD_TRACE, FAILED, NOTHING_REPORTED, REPORTED, View};

/// Three mutexes whose order is learnt in two steps, and the last and the first in the other order.
const THROUGH_A_PATH: &str = r#"init 1 mtx - "a" "A"
init 1 mtx - "b" "B"
init 1 mtx - "c" "C"
check 1 1 x n f:1
lock 1 1
check 1 2 x n f:2
lock 1 2
unlock 1 2 x
unlock 1 1 x
check 1 2 x n f:3
lock 1 2
check 1 3 x n f:4
lock 1 3
unlock 1 3 x
unlock 1 2 x
check 2 3 x n f:5
lock 2 3
check 2 1 x n f:6
"#;

const THROUGH_A_PATH_REPORT: &str = r#"lock order reversal:
 1st "c" (C, sleep mutex) @ f:5
 2nd "a" (A, sleep mutex) @ f:6
established order:
 "A" -> "B" @ f:2
 "B" -> "C" @ f:4
"#;

/// Traces whose last line is reported, and their outputs.
const REPORTED_LAST: [(&str, &str); 2] = [
    (BOTH_ORDERS, BOTH_ORDERS_REPORT),
    (THROUGH_A_PATH, THROUGH_A_PATH_REPORT),
];

/// Whether a replay of these bytes writes this output, and ends with this status and bad line.
fn ends_as(
    alloc: Global,
    bytes: &[u8],
    output: &[u8],
    status: u8,
    bad: Option<(u64, Cause)>,
) -> bool {
    let mut input = bytes;
    let mut written = Vec::new(alloc);
    let outcome = replayed(alloc, &mut input, &mut written, View::Reports);
    let is_bad = match &outcome {
        Ok(summary) => summary.bad == bad,
        Err(_) => false,
    };
    is_bad && written.as_slice() == output && status_is(&outcome, status)
}

/// Whether a replay of the beginning of a trace says nothing, or that it is cut in this line.
fn beginning_agrees(alloc: Global, front: &[u8], line: u64) -> Result<bool, AllocError> {
    if front.ends_with(b"\n") {
        return Ok(ends_as(alloc, front, b"", NOTHING_REPORTED, None));
    }
    let cut = format!(in alloc; "line {line}: cut\n")?;
    let bad = Some((line, Cause::Cut));
    Ok(ends_as(alloc, front, cut.as_bytes(), BAD_TRACE, bad))
}

#[test]
fn beginnings(rt: HostRuntime) -> Result<(), Fail> {
    let alloc = rt.alloc();
    for (rest, report) in REPORTED_LAST {
        let trace = format!(in alloc; "{HEADER}{rest}")?;
        let bytes = trace.as_bytes();
        let mut line: u64 = 1;
        for len in 0..bytes.len() {
            let front = &bytes[..len];
            assert!(rt; beginning_agrees(alloc, front, line)?, "of {len} bytes");
            line = line.saturating_add(u64::from(bytes[len] == b'\n'));
        }
        assert!(rt; ends_as(alloc, bytes, report.as_bytes(), REPORTED, None));
    }
    Ok(())
}

/// Whether a replay through ends that move so many bytes at a time writes this report.
fn reports_slowly(alloc: Global, trace: &[u8], report: &str, step: usize) -> bool {
    let mut input = Drip::new(trace, step);
    let mut output = Funnel::new(alloc, step);
    match replayed(alloc, &mut input, &mut output, View::Reports) {
        Ok(summary) => {
            summary.reports == 1
                && summary.bad.is_none()
                && !summary.circle
                && output.bytes.as_slice() == report.as_bytes()
        }
        Err(_) => false,
    }
}

#[test]
fn slow_ends(rt: HostRuntime) -> Result<(), Fail> {
    let alloc = rt.alloc();
    for (rest, report) in REPORTED_LAST {
        let trace = format!(in alloc; "{HEADER}{rest}")?;
        for step in 1..101 {
            let is_right = reports_slowly(alloc, trace.as_bytes(), report, step);
            assert!(rt; is_right, "{step} at a time");
        }
    }
    Ok(())
}

/// Lines, and the text that is told once they are taken.
type Part = (&'static str, &'static str);

/// Traces in parts, behind each of which stands a line that is cut, and its text.
const TOLD: [(&[Part], Part); 2] = [
    (
        &[
            (HEADER, ""),
            (BOTH_ORDERS, BOTH_ORDERS_REPORT),
            ("assert 2 1 l\n", "assert \"a\": not locked\n"),
            (
                "warn 2 0 -\n",
                "1 locks held:\nexclusive sleep mutex \"b\" (B) r = 0 @ f:3\n",
            ),
        ],
        ("lock 2", "line 15: cut\n"),
    ),
    (
        &[(HEADER, ""), (THROUGH_A_PATH, THROUGH_A_PATH_REPORT)],
        ("lock 2", "line 20: cut\n"),
    ),
];

/// All lines of parts, and the text that is told of those that so many bytes hold whole.
fn lines_and_text(
    alloc: Global,
    parts: &[Part],
    taken: usize,
) -> Result<(Vec<u8>, Vec<u8>), AllocError> {
    let (mut lines, mut text) = (Vec::new(alloc), Vec::new(alloc));
    for (part, told) in parts {
        lines.extend_from_slice(part.as_bytes())?;
        if lines.len() <= taken {
            text.extend_from_slice(told.as_bytes())?;
        }
    }
    Ok((lines, text))
}

/// Whether a replay fails where the reader does, doesn't look again, and has told of every whole
/// line before that.
fn fails_at_look(alloc: Global, trace: &[u8], told: &[u8], look: usize) -> bool {
    let mut input = Drip::new(trace, 1);
    input.fails_at = Some(look);
    let mut output = Vec::new(alloc);
    let ended = replayed_through(alloc, &mut input, &mut output, View::Reports);
    ended.blames_reader()
        && status_is(&ended.outcome, FAILED)
        && input.looks == look
        && output.as_slice() == told
}

#[test]
fn failing_readers(rt: HostRuntime) -> Result<(), Fail> {
    let alloc = rt.alloc();
    for (parts, cut) in TOLD {
        let (mut trace, _) = lines_and_text(alloc, parts, 0)?;
        trace.extend_from_slice(cut.0.as_bytes())?;
        // One look more than there are bytes finds the end.
        for look in 1..trace.len() + 2 {
            let (_, told) = lines_and_text(alloc, parts, look - 1)?;
            let is_right = fails_at_look(alloc, &trace, &told, look);
            assert!(rt; is_right, "at look {look}");
        }
    }
    Ok(())
}

/// Whether a replay fails where the writer fails or takes no byte, doesn't write again, and has
/// written all bytes before that.
fn fails_at_write(
    alloc: Global,
    trace: &[u8],
    told: &[u8],
    write: usize,
    takes_none: bool,
) -> bool {
    let mut input = trace;
    let mut output = Funnel::new(alloc, 1);
    if takes_none {
        output.blocks_at = Some(write);
    } else {
        output.fails_at = Some(write);
    }
    let ended = replayed_through(alloc, &mut input, &mut output, View::Reports);
    ended.blames_writer()
        && status_is(&ended.outcome, FAILED)
        && output.writes == write
        && output.bytes.len().saturating_add(1) == write
        && told.starts_with(&output.bytes)
}

#[test]
fn failing_writers(rt: HostRuntime) -> Result<(), Fail> {
    let alloc = rt.alloc();
    for (parts, cut) in TOLD {
        let (mut trace, mut told) = lines_and_text(alloc, parts, usize::MAX)?;
        trace.extend_from_slice(cut.0.as_bytes())?;
        told.extend_from_slice(cut.1.as_bytes())?;
        for write in 1..told.len() + 1 {
            let fails = fails_at_write(alloc, &trace, &told, write, false);
            let stops = fails_at_write(alloc, &trace, &told, write, true);
            assert!(rt; fails && stops, "at write {write}");
        }
    }
    Ok(())
}

/// A replay's summary, where it has one.
fn summed(alloc: Global, trace: &str, view: View) -> Option<Summary> {
    let mut input = trace.as_bytes();
    let mut output = Vec::new(alloc);
    replayed(alloc, &mut input, &mut output, view).ok()
}

// What no log holds counts beside what it holds, whatever is shown.
#[test]
fn unlogged_reports(rt: HostRuntime) -> Result<(), Fail> {
    let alloc = rt.alloc();
    let trace = format!(in alloc; "{HEADER}{BOTH_ORDERS}assert 2 1 l\nwarn 2 0 -\nwarn 2 2 -\n")?;
    let sums = Summary {
        calls: 11,
        reports: 3,
        circle: false,
        bad: None,
    };
    for view in [View::Reports, View::Graph] {
        assert!(rt; summed(alloc, &trace, view) == Some(sums));
    }
    Ok(())
}

/// With ample memory the whole report is written. Where the machine refuses some, what was written
/// is a beginning of it.
#[test]
fn refused_memory(rt: HostRuntime) -> Result<(), Fail> {
    let alloc = rt.alloc();
    let trace = format!(in alloc; "{HEADER}{BOTH_ORDERS}")?;
    let report = BOTH_ORDERS_REPORT.as_bytes();
    let mut input = trace.as_bytes();
    let mut output = [0; 200];
    let mut room = output.as_mut_slice();
    let outcome = replayed(alloc, &mut input, &mut room, View::Reports);
    let left = room.len();
    let written = &output[..200 - left.min(200)];
    let is_right = match outcome {
        Ok(summary) => written == report && summary.reports == 1,
        Err(error) => matches!(error, ReplayError::Memory) && report.starts_with(written),
    };
    assert!(rt; is_right);
    Ok(())
}

#[test]
fn statuses(rt: HostRuntime) -> Result<(), Fail> {
    for error in [ReplayError::Read, ReplayError::Write, ReplayError::Memory] {
        assert!(rt; status_is(&Err(error), FAILED));
    }
    for (reports, bad, status) in [
        (0, None, NOTHING_REPORTED),
        (1, None, REPORTED),
        (2, None, REPORTED),
        (0, Some((1, Cause::Cut)), BAD_TRACE),
        (1, Some((13, Cause::Syntax)), BAD_TRACE),
    ] {
        let summary = Summary {
            calls: 0,
            reports,
            circle: false,
            bad,
        };
        assert!(rt; status_is(&Ok(summary), status));
    }
    assert_eq!(rt;
        (NOTHING_REPORTED, REPORTED, BAD_TRACE, FAILED),
        (0, 1, 3, 4)
    );
    Ok(())
}
