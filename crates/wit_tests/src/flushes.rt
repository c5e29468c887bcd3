//! When a text is seen.

use crate::fakes::{Held, Watched};
use crate::traces::{BOTH_ORDERS, BOTH_ORDERS_REPORT, HEADER, replayed_through};
use std::alloc::Global;
use std::cell::Cell;
use std::test::Fail;
use wit_trace::View;

/// The first seat of `BOTH_ORDERS` asserts that it has the first mutex.
const ASSERTION: &str = "assert 1 1 l\n";

const FAILED: &str = "assert \"a\": not locked\n";

/// The second seat goes on, and does it once more.
const ONCE_MORE: &str = r#"lock 2 1
unlock 2 1 x
unlock 2 2 x
check 2 2 x n f:5
lock 2 2
check 2 1 x n f:6
"#;

/// How much of the trace is left after the first report.
const LEFT: usize = ASSERTION.len() + ONCE_MORE.len();

/// How often the reader was looked at while the bytes that were seen weren't those due, how often
/// the writer was flushed, whether the replay ends as it should, and how much of the trace is left,
/// where a look shows so many bytes, and a flush fails or not.
fn seen(alloc: Global, trace: &[u8], step: usize, fails: bool) -> (usize, usize, bool, usize) {
    let seen = Cell::new(0);
    let mut input = Watched {
        rest: trace,
        step,
        seen: &seen,
        dues: [
            (LEFT, BOTH_ORDERS_REPORT.len()),
            (ONCE_MORE.len(), BOTH_ORDERS_REPORT.len() + FAILED.len()),
        ],
        late: 0,
    };
    let mut output = Held {
        held: 0,
        seen: &seen,
        flushes: 0,
        fails,
    };
    let ended = replayed_through(alloc, &mut input, &mut output, View::Reports);
    let is_right = if fails {
        ended.blames_writer()
    } else {
        ended.is_sound()
    };
    (input.late, output.flushes, is_right, input.rest.len())
}

/// Each of two reports is seen before the next line is looked at, and nothing is flushed for the
/// other lines, also where a look shows all lines at once.
#[test]
fn seen_as_it_happens(rt: HostRuntime) -> Result<(), Fail> {
    let alloc = rt.alloc();
    let trace = format!(in alloc; "{HEADER}{BOTH_ORDERS}{ASSERTION}{ONCE_MORE}")?;
    for step in [1, trace.len()] {
        let ends = seen(alloc, trace.as_bytes(), step, false);
        assert_eq!(rt; ends, (0, 2, true, 0), "{step} bytes at a look");
        let fails = seen(alloc, trace.as_bytes(), step, true);
        assert_eq!(rt; fails, (0, 1, true, LEFT), "{step} bytes at a look");
    }
    Ok(())
}
