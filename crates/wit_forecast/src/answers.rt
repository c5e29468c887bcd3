//! What is written of a report.

ghost use Rattle.std.specs.Prelude.{◌≡◌, ◌++◌, IfOk, OnOk};
ghost use Rattle.wit_forecast.specs.Forecasts.{text_of, texts_of};

use std::alloc::{AllocError, Global};

/// An answer.
#[derive(Debug, Drop)]
pub enum Answer {
    /// A schedule that begins as the run did: a reordering of it.
    Schedule(Vec<u8>),
    /// A schedule of errands alone.
    Errands(Vec<u8>),
    /// One in which further seats do what seats of the run did.
    Copies(Vec<u8>),
    /// Words, which stand in a line of their own.
    Words(String),
}

/// The text of answers.
///
/// # Errors
/// Want of memory alone.
pub fn text_of_all(alloc: Global, answers: &[Answer]) -> Result<Vec<u8>, AllocError>
    ensures { IfOk result (λ text. text.items ≡ texts_of answers.now) }
{
    let mut text = Vec::new(alloc);
    put_all(&mut text, answers)?;
    Ok(text)
}

fn put_all(text: &mut Vec<u8>, answers: &[Answer]) -> Result<(), AllocError>
    ensures { OnOk result (text.new.items ≡ text.old.items ++ texts_of answers.now) }
{
    match answers {
        [] => Ok(()),
        [answer, others @ ..] => {
            put(text, answer)?;
            put_all(text, others)
        }
    }
}

fn put(text: &mut Vec<u8>, answer: &Answer) -> Result<(), AllocError>
    ensures { OnOk result (text.new.items ≡ text.old.items ++ text_of answer.now) }
{
    match answer {
        Answer::Schedule(lines) | Answer::Errands(lines) | Answer::Copies(lines) => {
            text.extend_from_slice(lines)
        }
        Answer::Words(words) => {
            text.extend_from_slice(b"report ")?;
            text.extend_from_slice(words.as_bytes())?;
            text.push(b'\n')?;
            Ok(())
        }
    }
}
