//! What is wrong with a line.

ghost use Rattle.std.specs.Prelude.{◌≡◌};
ghost use Rattle.wit_merge.specs.declared.flaws.MergeError.TheVariants.{Memory};
ghost use Rattle.wit_merge.specs.Flaws.{cause_of, flaw_of, flaw_text};

use std::alloc::AllocError;
use wit_model::Cause;

/// What is wrong with a line.
#[derive(Clone, Copy, Debug, PartialEq, Eq)]
pub enum Flaw {
    /// More than 4,096 bytes before a line feed or the end of the input.
    Long,
    /// The input ends within the line.
    Cut,
    /// It is no order.
    Order,
    /// What stands after the order isn't told as its origin.
    Origin,
    /// A byte of it would end a line or a column, for whoever reads it.
    Byte,
    /// The order is of a type to itself.
    Itself,
    /// It isn't how many runs were counted.
    Runs,
    /// It isn't how many runs met an order.
    Count,
    /// It tells of more runs than were counted.
    More,
}

impl Flaw {
    /// Its text.
    pub fn text(self) -> &'static str
        ensures { result.now ≡ flaw_text self }
    {
        match self {
            Flaw::Long => "it is longer than 4,096 bytes",
            Flaw::Cut => "it has no end",
            Flaw::Order => "it isn't CLASS \"TYPE\" > CLASS \"TYPE\"",
            Flaw::Origin => {
                "after the order stands something else than a tab, # and where it comes from"
            }
            Flaw::Byte => "it has a byte that is no part of a text",
            Flaw::Itself => "a type stands before itself",
            Flaw::Runs => "it isn't runs N",
            Flaw::Count => "it isn't COUNT [LAST] CLASS \"TYPE\" > CLASS \"TYPE\"",
            Flaw::More => "it tells of more runs than were counted",
        }
    }

    /// The stream's own name of it.
    pub fn cause(self) -> Cause
        ensures { result ≡ cause_of self }
    {
        match self {
            Flaw::Long => Cause::Long,
            Flaw::Cut => Cause::Cut,
            Flaw::More => Cause::Limit,
            _ => Cause::Syntax,
        }
    }
}

/// What is wrong with a line that isn't whole, by the stream's name of that.
pub fn flaw_of(cause: Cause) -> Flaw
    ensures { result ≡ flaw_of cause }
{
    match cause {
        Cause::Long => Flaw::Long,
        _ => Flaw::Cut,
    }
}

/// Why a line isn't taken.
#[derive(Debug, Drop)]
pub enum MergeError {
    /// The line has a flaw.
    Bad(Flaw),
    /// A growth was refused.
    Memory,
}

impl From<AllocError> for MergeError {
    ghost from_gives = { λ _ e. e ≡ Memory };

    fn from(_error: AllocError) -> MergeError {
        MergeError::Memory
    }
}
