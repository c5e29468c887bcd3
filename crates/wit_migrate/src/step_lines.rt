//! The lines of the steps that go with calls.

ghost use Rattle.std.specs.Prelude.{◌≡◌, ◌++◌, ◌∷◌, [], IfOk, OnOk};
ghost use Rattle.wit_model.specs.Trace.Moving.{with_feeds};
ghost use Rattle.wit_migrate.specs.Migrates.{StandsBeside, line_and_step, line_of_step};

use crate::steps::LockStep;
use crate::texts::put_line;
use std::alloc::AllocError;
use wit_grammar::put_step;
use wit_model::RawStep;

/// A line, and the one of the step that goes with it, in the room of a text that has nothing.
///
/// # Errors
/// Want of memory alone.
#[inline(always)]
pub fn both_lines(room: Vec<u8>, step: LockStep, bytes: &[u8]) -> Result<Vec<u8>, AllocError>
    requires room { room.items ≡ [] }
    requires line { StandsBeside bytes.now step }
    ensures { IfOk result (λ text. text.items ≡ with_feeds (line_and_step step bytes.now)) }
{
    let mut text = room;
    match step.step {
        RawStep::Take | RawStep::TryTake(_) | RawStep::Up => {
            put_step_line(&mut text, step, bytes)?;
            put_line(&mut text, bytes)?;
        }
        RawStep::Free | RawStep::Down => {
            put_line(&mut text, bytes)?;
            put_step_line(&mut text, step, bytes)?;
        }
    }
    Ok(text)
}

// The line of a step. Where a lock is taken or freed, its numbers stand in the line beside it, and
// spelled in the one way that there is: so they are copied.
#[inline(always)]
fn put_step_line(text: &mut Vec<u8>, step: LockStep, beside: &[u8]) -> Result<(), AllocError>
    requires { StandsBeside beside.now step }
    ensures { OnOk result (text.new.items ≡ text.old.items ++ (line_of_step step ++ 10 ∷ [])) }
{
    match step.step {
        RawStep::Take => put_fields(text, b"take", &beside[4..]),
        RawStep::Free => put_fields(text, b"free", &beside[6..beside.len() - 2]),
        RawStep::TryTake(_) | RawStep::Up | RawStep::Down => {
            put_step(text, step.seat, step.lock, step.step)?;
            text.push(b'\n')?;
            Ok(())
        }
    }
}

// A word, and what stands behind it in its line.
#[inline(always)]
fn put_fields(text: &mut Vec<u8>, word: &[u8], fields: &[u8]) -> Result<(), AllocError>
    ensures { OnOk result (text.new.items
        ≡ text.old.items ++ ((word.now ++ fields.now) ++ 10 ∷ [])) }
{
    text.extend_from_slice(word)?;
    put_line(text, fields)
}
