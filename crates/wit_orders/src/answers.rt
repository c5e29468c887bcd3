//! What is answered of a sequence of types and of pairs of them.

ghost use Rattle.std.specs.Prelude.{◌≡◌, string_bytes, IfOk};
ghost use Rattle.wit_orders.specs.declared.answers.Answer.TheVariants.{Acyclic, Refused};
ghost use Rattle.wit_orders.specs.Answers.{answer_text, flaw_text};
ghost use Rattle.wit_orders.specs.Outputs.{cause_of, summary_of};

use std::alloc::{AllocError, Global};
use wit_model::Cause;
use wit_stream::Summary;

/// What is wrong with a line.
#[derive(Clone, Copy, Debug, PartialEq, Eq)]
pub enum Flaw {
    /// More than 4,096 bytes before a line feed or the end of the input.
    Long,
    /// The input ends within the line.
    Cut,
    /// It says neither a type nor a pair.
    Syntax,
    /// A type of the pair isn't listed before the pair.
    Unknown,
    /// The type is listed before.
    Twice,
    /// The second type of the pair doesn't stand behind the first in the sequence.
    Backward,
}

/// What is answered.
#[derive(Clone, Copy, Debug, PartialEq, Eq)]
pub enum Answer {
    /// Each pair goes forward in the sequence; there are so many types, and so many lines with
    /// pairs.
    Acyclic { types: u64, pairs: u64 },
    /// The first line with a flaw, counted from 1.
    Refused { line: u64, flaw: Flaw },
}

impl Answer {
    /// Its text, which is a line.
    ///
    /// # Errors
    /// Want of memory alone.
    pub fn text(self, alloc: Global) -> Result<String, AllocError>
        ensures { IfOk result (λ text. string_bytes text ≡ answer_text self) }
    {
        match self {
            Answer::Acyclic { types, pairs } => acyclic_text(alloc, types, pairs),
            Answer::Refused { line, flaw } => refused_text(alloc, line, flaw),
        }
    }

    /// What it comes to for a stream: a pair that goes backward is a report, any other flaw makes a
    /// bad line.
    pub fn summary(self) -> Summary
        ensures { result ≡ summary_of self }
    {
        let nothing = Summary {
            calls: 0,
            reports: 0,
            circle: false,
            bad: None,
        };
        match self {
            Answer::Acyclic { .. } => nothing,
            Answer::Refused {
                flaw: Flaw::Backward,
                ..
            } => Summary {
                reports: 1,
                ..nothing
            },
            Answer::Refused { line, flaw } => Summary {
                bad: Some((line, cause_of(flaw))),
                ..nothing
            },
        }
    }
}

fn acyclic_text(alloc: Global, types: u64, pairs: u64) -> Result<String, AllocError>
    ensures { IfOk result (λ text. string_bytes text ≡ answer_text (Acyclic types pairs)) }
{
    let mut text = String::from_str(alloc, "acyclic: ")?;
    let digits = types.to_string(alloc)?;
    text.push_str(&digits)?;
    text.push_str(" types, ")?;
    let digits = pairs.to_string(alloc)?;
    text.push_str(&digits)?;
    text.push_str(" pairs\n")?;
    Ok(text)
}

fn refused_text(alloc: Global, line: u64, flaw: Flaw) -> Result<String, AllocError>
    ensures { IfOk result (λ text. string_bytes text ≡ answer_text (Refused line flaw)) }
{
    let mut text = String::from_str(alloc, "line ")?;
    let digits = line.to_string(alloc)?;
    text.push_str(&digits)?;
    text.push_str(": ")?;
    text.push_str(flaw_words(flaw))?;
    text.push('\n')?;
    Ok(text)
}

fn flaw_words(flaw: Flaw) -> &'static str
    ensures { result.now ≡ flaw_text flaw }
{
    match flaw {
        Flaw::Long => "long",
        Flaw::Cut => "cut",
        Flaw::Syntax => "syntax",
        Flaw::Unknown => "unknown type",
        Flaw::Twice => "listed twice",
        Flaw::Backward => "backward",
    }
}

// The stream's own name of a flaw.
fn cause_of(flaw: Flaw) -> Cause
    ensures { result ≡ cause_of flaw }
{
    match flaw {
        Flaw::Long => Cause::Long,
        Flaw::Cut => Cause::Cut,
        Flaw::Syntax | Flaw::Unknown | Flaw::Twice | Flaw::Backward => Cause::Syntax,
    }
}
