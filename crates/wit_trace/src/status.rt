//! The exit status of a replay.

ghost use Rattle.std.specs.Prelude.{◌≡◌};
ghost use Rattle.wit_trace.specs.Status.{exit_status, is_reported};

use wit_lines::View;
use wit_stream::{ReplayError, Summary};

/// The exit status where the view shows nothing to act upon: no report of `Reports` and `State`, no
/// circle of `Circle`, a clean log of `Clean`; and of `Graph` and `Locks`.
pub const NOTHING_REPORTED: u8 = 0;

/// The exit status where there was a report, failed assertion or warning, of `Reports` and `State`; a
/// circle, of `Circle`; or a log that isn't clean, of `Clean`.
pub const REPORTED: u8 = 1;

/// The exit status where a line of the trace was bad.
pub const BAD_TRACE: u8 = 3;

/// The exit status where the input or the output failed, or memory ran out.
pub const FAILED: u8 = 4;

/// The exit status of a replay: the highest that applies of `NOTHING_REPORTED`, `REPORTED`,
/// `BAD_TRACE` and `FAILED`.
pub fn status_of(view: View, outcome: &Result<Summary, ReplayError>) -> u8
    ensures { result ≡ exit_status view outcome.now }
{
    let Ok(summary) = outcome else {
        return FAILED;
    };
    if summary.bad.is_some() {
        return BAD_TRACE;
    }
    if has_reported(view, summary) {
        REPORTED
    } else {
        NOTHING_REPORTED
    }
}

fn has_reported(view: View, summary: &Summary) -> bool
    ensures { result ≡ is_reported view summary.now }
{
    match view {
        View::Reports | View::State => summary.reports > 0,
        View::Graph | View::Locks => false,
        View::Circle | View::Clean => summary.circle,
    }
}
