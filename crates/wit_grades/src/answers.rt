//! The lines that are written: a grade, and a bad line.

ghost use Rattle.std.specs.Prelude.{◌≡◌, ◌++◌, string_bytes, IfOk};
ghost use Rattle.wit_model.specs.Trace.Output.{bad_text, cause_text};
ghost use Rattle.wit_grades.specs.Answers.{grade_text, none_text, places_text, reason_text};

use std::alloc::{AllocError, Global};
use wit_alarms::{Cause, Grade, Reason};

/// The line of a grade.
///
/// # Errors
/// Want of memory alone.
pub fn grade_text(alloc: Global, grade: &Grade) -> Result<String, AllocError>
    ensures { IfOk result (λ text. string_bytes text ≡ grade_text grade.now) }
{
    match grade {
        Grade::Same(places) => with_places(alloc, "same", places),
        Grade::Never(cause) => none_text(alloc, cause),
        Grade::NotKnown => String::from_str(alloc, "unknown\n"),
    }
}

fn none_text(alloc: Global, cause: &Cause) -> Result<String, AllocError>
    ensures { IfOk result (λ text. string_bytes text ≡ none_text cause.now) }
{
    match cause {
        Cause::TypesAlone => String::from_str(alloc, "none types\n"),
        Cause::Kept(reason, places) => with_places(alloc, reason_words(*reason), places),
        Cause::Several(places) => with_places(alloc, "none several", places),
    }
}

fn reason_words(reason: Reason) -> &'static str
    ensures { result.now ≡ reason_text reason }
{
    match reason {
        Reason::OneThread => "none thread",
        Reason::Gate => "none gate",
        Reason::Readers => "none readers",
        Reason::Limit => "none timed",
        Reason::Apart => "none apart",
        Reason::Waits => "none waits",
    }
}

// A line of these words and places.
fn with_places(alloc: Global, words: &str, places: &[usize]) -> Result<String, AllocError>
    ensures { IfOk result (λ text. string_bytes text
        ≡ words.now ++ places_text places.now) }
{
    let mut text = String::from_str(alloc, words)?;
    let mut rest = places;
    while let Some((place, others)) = rest.split_first() {
        text.push(' ')?;
        let digits = place.to_string(alloc)?;
        text.push_str(&digits)?;
        rest = others;
    }
    text.push('\n')?;
    Ok(text)
}

/// The text of a bad line, by its number from 1.
///
/// # Errors
/// Want of memory alone.
pub fn bad_text(alloc: Global, number: u64, cause: wit_model::Cause) -> Result<String, AllocError>
    ensures { IfOk result (λ text. string_bytes text ≡ bad_text number cause) }
{
    let mut text = String::from_str(alloc, "line ")?;
    let digits = number.to_string(alloc)?;
    text.push_str(&digits)?;
    text.push_str(": ")?;
    text.push_str(cause_words(cause))?;
    text.push('\n')?;
    Ok(text)
}

fn cause_words(cause: wit_model::Cause) -> &'static str
    ensures { result.now ≡ cause_text cause }
{
    match cause {
        wit_model::Cause::Long => "long",
        wit_model::Cause::Cut => "cut",
        wit_model::Cause::Syntax => "syntax",
        wit_model::Cause::Version => "version",
        wit_model::Cause::Limit => "limit",
        wit_model::Cause::Fault(fault) => fault.text(),
    }
}
