//! The prelude of a migrated trace.

ghost use Rattle.std.specs.Prelude.{◌≡◌, ◌-◌, ◌≤◌, ◌++◌, ◌∷◌, [], take, false, IfOk, OnOk};
ghost use Rattle.wit_model.specs.Trace.Moving.{moving_entered};
ghost use Rattle.wit_model.specs.Trace.Moving as moving;
ghost use Rattle.wit_migrate.specs.Migrates.{MovesAsDue, ReachesLine};
ghost use Rattle.wit_migrate.specs.Migrates.{kept_bytes, moved_to, moving_reports, weighed};
ghost use Rattle.wit_lines.specs.Replays.{prelude_of};

use crate::behind::Behind;
use crate::migrating::Migrating;
use crate::texts::whole_lines;
use std::alloc::{AllocError, Global};
use std::mem;
use wit_grammar::LineError;
use wit_lines::{Prelude, add_line, is_prelude, verifier_of};
use wit_model::{Cause, Line};

/// What is written before a line, once it is known whether the prelude ends there.
#[derive(Drop)]
pub struct Reached {
    /// The lines that were kept; of a prelude in which a list is refused, those before it.
    pub text: Vec<u8>,
    /// The number of the refused list's line, and why it is refused.
    pub refused: Option<(u64, Cause)>,
}

impl Reached {
    /// Nothing is written, and nothing refused.
    pub fn on(alloc: Global) -> Reached
        ensures text { result.text.items ≡ [] }
        ensures refused { result.refused ≡ None }
    {
        Reached {
            text: Vec::new(alloc),
            refused: None,
        }
    }
}

/// A line of the prelude is kept.
///
/// # Errors
/// `Bad` where it is no line of the prelude; `Memory`.
pub fn keep(
    alloc: Global,
    prelude: &mut Prelude,
    kept: &mut Vec<Vec<u8>>,
    number: u64,
    line: Line,
    bytes: &[u8],
) -> Result<Vec<u8>, LineError>
    ensures { MovesAsDue
        (moving_entered (moving.Keeping (prelude_of prelude.old) (kept_bytes kept.old.items))
        number bytes.now line)
        (moving.Keeping (prelude_of prelude.old) (kept_bytes kept.old.items))
        (moving.Keeping (prelude_of prelude.new) (kept_bytes kept.new.items)) result }
{
    let nothing = add_line(alloc, prelude, number, line)?;
    push_line(alloc, kept, bytes)?;
    Ok(nothing)
}

fn push_line(alloc: Global, kept: &mut Vec<Vec<u8>>, bytes: &[u8]) -> Result<(), AllocError>
    ensures { OnOk result
        (kept_bytes kept.new.items ≡ kept_bytes kept.old.items ++ bytes.now ∷ []) }
{
    kept.push(Vec::from_slice(alloc, bytes)?)?;
    Ok(())
}

/// The prelude ends before a line that is none of it, and at the end of the input.
///
/// # Errors
/// Want of memory alone.
#[cold]
#[inline(never)]
pub fn reach(
    alloc: Global,
    machine: &mut Migrating,
    number: u64,
    line: &[u8],
) -> Result<Reached, AllocError>
    ensures stands { IfOk result (λ r. ReachesLine (moved_to machine.old) number line.now
        (moved_to machine.new) r.text.items r.refused) }
    ensures counted { IfOk result (λ r.
        moving_reports (moved_to machine.new) ≤ moving_reports (moved_to machine.old)) }
    ensures weighed { IfOk result (λ r.
        weighed (moved_to machine.new) ≤ weighed (moved_to machine.old)) }
{
    if is_prelude(number, line) {
        return Ok(Reached::on(alloc));
    }
    match mem::replace(machine, Migrating::Unmoved) {
        Migrating::Keeping { prelude, kept } => match verifier_of(alloc, prelude)? {
            Ok(verifier) => {
                *machine = Migrating::Moved(Behind::new(alloc, verifier));
                Ok(Reached {
                    text: whole_lines(alloc, &kept)?,
                    refused: None,
                })
            }
            Err((list, cause)) => Ok(Reached {
                text: whole_lines(alloc, before(&kept, list))?,
                refused: Some((list, cause)),
            }),
        },
        other => {
            *machine = other;
            Ok(Reached::on(alloc))
        }
    }
}

// The lines of a prelude before the one with this number; the first has number 2.
fn before(kept: &[Vec<u8>], number: u64) -> &[Vec<u8>]
    ensures { result.now ≡ take (number - 2) kept.now }
{
    let count = number.saturating_sub(2).min(kept.len() as u64) as usize;
    &kept[..count]
}
