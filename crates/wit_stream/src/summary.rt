//! How a replay ends.

ghost use Rattle.std.specs.Prelude.{◌≡◌};
ghost use Rattle.wit_stream.specs.declared.summary.ReplayError.TheVariants.{Memory};

use std::alloc::AllocError;
use wit_model::Cause;

/// What a replay found.
#[derive(Clone, Copy, Debug, PartialEq, Eq)]
pub struct Summary {
    /// The calls that the verifier logged.
    pub calls: u64,
    /// The reports, failed assertions and warnings of the trace, whether the view shows them or
    /// not.
    pub reports: u64,
    /// Whether a circle of waiting seats was written.
    pub circle: bool,
    /// The bad line that ended the reading, counted from 1, and why; where a static list is
    /// refused, the list's line.
    pub bad: Option<(u64, Cause)>,
}

/// Why a replay has no summary.
#[derive(Debug, Drop, thiserror::Error)]
pub enum ReplayError {
    /// The reader failed.
    #[error("the input failed")]
    Read,
    /// The writer failed, took no byte or didn't flush.
    #[error("the output failed")]
    Write,
    /// A growth was refused.
    #[error("out of memory")]
    Memory,
}

impl From<AllocError> for ReplayError {
    ghost from_gives = { λ _ e. e ≡ Memory };

    fn from(_error: AllocError) -> ReplayError {
        ReplayError::Memory
    }
}
