//! Why a line is no call that was made.

ghost use Rattle.std.specs.Prelude.{◌≡◌};
ghost use Rattle.wit_fields.specs.declared.errors.LineError.TheVariants.{Memory};
ghost use Rattle.wit_fields.specs.Fields.{RefusesLine};

use std::alloc::AllocError;
use wit_model::{Cause, Fault};

/// Why a line could not be read, or its call not be made.
#[derive(Debug, Drop)]
pub enum LineError {
    /// The line is bad.
    Bad(Cause),
    /// A growth was refused.
    Memory,
}

impl LineError {
    /// The bytes spell no line.
    pub const SYNTAX: LineError = LineError::Bad(Cause::Syntax);
}

impl From<AllocError> for LineError {
    ghost from_gives = { λ _ e. e ≡ Memory };

    fn from(_error: AllocError) -> LineError {
        LineError::Memory
    }
}

impl From<Fault> for LineError {
    ghost from_gives = { RefusesLine };

    fn from(fault: Fault) -> LineError {
        match fault {
            Fault::OutOfMemory => LineError::Memory,
            fault => LineError::Bad(Cause::Fault(fault)),
        }
    }
}
