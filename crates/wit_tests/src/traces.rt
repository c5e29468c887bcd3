//! Traces that more than one file replays, and how they are replayed.

use std::alloc::Global;
use std::io::{BufRead, Write};
use wit_stream::{Failures, ReplayError, Summary};
use wit_trace::{View, replay, replay_through, status_of};

pub const HEADER: &str = "witness-trace 1 seats 2 types 8 locks 16 chunks 4\n";

/// Two mutexes that one seat takes in one order, and another seat asks for in the other.
pub const BOTH_ORDERS: &str = r#"init 1 mtx - "a" "A"
init 1 mtx - "b" "B"
check 1 1 x n f:1
lock 1 1
check 1 2 x n f:2
lock 1 2
unlock 1 2 x
unlock 1 1 x
check 2 2 x n f:3
lock 2 2
check 2 1 x n f:4
"#;

pub const BOTH_ORDERS_REPORT: &str = r#"lock order reversal:
 1st "b" (B, sleep mutex) @ f:3
 2nd "a" (A, sleep mutex) @ f:4
established order:
 "A" -> "B" @ f:2
"#;

/// A replay whose promise no test carries along.
pub fn replayed<R: BufRead, W: Write>(
    alloc: Global,
    input: &mut R,
    output: &mut W,
    view: View,
) -> Result<Summary, ReplayError> {
    replay(alloc, input, output, view)
}

/// How a replay ended, and the evidence that it left of a failure.
#[derive(Drop)]
pub struct ReplayEnd {
    pub outcome: Result<Summary, ReplayError>,
    /// Whether there is evidence that the reader failed.
    pub read_failed: bool,
    /// Whether there is evidence that the writer failed.
    pub write_failed: bool,
}

impl ReplayEnd {
    /// Whether it ended well, or at a bad line, and blames neither end.
    pub fn is_sound(&self) -> bool {
        self.outcome.is_ok() && !self.read_failed && !self.write_failed
    }

    /// Whether the reader failed, and is blamed alone.
    pub fn blames_reader(&self) -> bool {
        matches!(self.outcome, Err(ReplayError::Read)) && self.read_failed && !self.write_failed
    }

    /// Whether the writer failed, and is blamed alone.
    pub fn blames_writer(&self) -> bool {
        matches!(self.outcome, Err(ReplayError::Write)) && self.write_failed && !self.read_failed
    }
}

/// A replay as `replayed`, through ports that are asked for their evidence.
pub fn replayed_through<R: BufRead, W: Write>(
    alloc: Global,
    input: &mut R,
    output: &mut W,
    view: View,
) -> ReplayEnd {
    let mut ports = Failures::new();
    let outcome = replay_through(alloc, &mut ports, input, output, view);
    ReplayEnd {
        outcome,
        read_failed: ports.has_read_failed(),
        write_failed: ports.has_write_failed(),
    }
}

/// Whether the exit status of a replay of the reports is this one.
pub fn status_is(outcome: &Result<Summary, ReplayError>, status: u8) -> bool {
    status_of(View::Reports, outcome) == status
}
