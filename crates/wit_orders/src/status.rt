//! The exit status.

ghost use Rattle.std.specs.Prelude.{◌≡◌};
ghost use Rattle.wit_orders.specs.Outputs.{exit_status};

use wit_stream::{ReplayError, Summary};

/// The exit status where each pair goes forward.
pub const ACYCLIC: u8 = 0;

/// The exit status where a pair goes backward, or from a type to itself.
pub const BACKWARD: u8 = 1;

/// The exit status where a line was bad.
pub const BAD_LINE: u8 = 3;

/// The exit status where the input or the output failed, or memory ran out.
pub const FAILED: u8 = 4;

/// The exit status of a check.
pub fn status_of(outcome: &Result<Summary, ReplayError>) -> u8
    ensures { result ≡ exit_status outcome.now }
{
    let Ok(summary) = outcome else {
        return FAILED;
    };
    if summary.bad.is_some() {
        BAD_LINE
    } else if summary.reports > 0 {
        BACKWARD
    } else {
        ACYCLIC
    }
}
