//! How a migration ends: at a bad line, or with what it found.

ghost use Rattle.std.specs.Prelude.{◌≡◌, ◌<◌, ◌^◌, ◌++◌, false, None, Some, IfOk, OnOk};
ghost use Rattle.wit_model.specs.Trace.Moving.{kept_lines, read_to, with_feeds};
ghost use Rattle.wit_model.specs.Trace.Moving as moving;
ghost use Rattle.wit_model.specs.Trace.Output.{bad_text, summed};
ghost use Rattle.wit_migrate.specs.Migrates.{EndsFor, EndsWith, moved_to, moving_reports};
ghost use Rattle.wit_lines.specs.Replays.{total};

use crate::migrating::Migrating;
use crate::texts::{join, whole_lines};
use std::alloc::{AllocError, Global};
use std::mem;
use wit_grammar::LineError;
use wit_model::{Boxed, Cause};
use wit_stream::{Step, Summary, bad_text};

impl Migrating {
    /// What was read up to here.
    pub fn found(&self) -> Summary
        requires { moving_reports (moved_to self.now) < 2 ^ 64 }
        ensures total { total result ≡ summed (read_to (moved_to self.now)) None }
        ensures circle { result.circle ≡ false }
    {
        match self {
            Migrating::Moved(behind) => behind.summary(),
            Migrating::Unmoved | Migrating::Keeping { .. } => Summary {
                calls: 0,
                reports: 0,
                circle: false,
                bad: None,
            },
        }
    }

    /// Ends at a bad line, where this was found before it; behind a text that is still to be
    /// written. Nothing is kept any more.
    ///
    /// # Errors
    /// Want of memory alone.
    #[cold]
    #[inline(never)]
    pub fn ended(
        &mut self,
        alloc: Global,
        before: Vec<u8>,
        found: Summary,
        number: u64,
        cause: Cause,
    ) -> Result<(Vec<u8>, Summary), AllocError>
        ensures text { IfOk result (λ r. r.0.items ≡ before.items
            ++ (with_feeds (kept_lines (moved_to self.old)) ++ bad_text number cause)) }
        ensures summary { IfOk result (λ r. r.1 ≡ record found { bad = Some (number, cause) }) }
        ensures over { OnOk result (moved_to self.new ≡ moving.Unmoved) }
    {
        let kept = self.last_lines(alloc)?;
        let (last, summary) = bad_ending(alloc, kept, found, number, cause)?;
        let text = join(before, &last)?;
        Ok((text, summary))
    }

    // The lines that are still to be written.
    fn last_lines(&mut self, alloc: Global) -> Result<Vec<u8>, AllocError>
        ensures text { IfOk result (λ text.
            text.items ≡ with_feeds (kept_lines (moved_to self.old))) }
        ensures over { moved_to self.new ≡ moving.Unmoved }
    {
        match mem::replace(self, Migrating::Unmoved) {
            Migrating::Keeping { kept, .. } => whole_lines(alloc, &kept),
            Migrating::Unmoved | Migrating::Moved(_) => Ok(Vec::new(alloc)),
        }
    }

    /// The step of a bad line, which ends there. The last text is put into this one.
    ///
    /// # Errors
    /// Want of memory alone.
    pub fn ended_step(
        &mut self,
        alloc: Global,
        before: Vec<u8>,
        found: Summary,
        number: u64,
        cause: Cause,
        text: &mut Vec<u8>,
    ) -> Result<Step, AllocError>
        ensures step { IfOk result (EndsWith
            (before.items ++ (with_feeds (kept_lines (moved_to self.old)) ++ bad_text number cause))
            (record found { bad = Some (number, cause) }) text.new.items) }
        ensures over { OnOk result (moved_to self.new ≡ moving.Unmoved) }
    {
        let (last, summary) = self.ended(alloc, before, found, number, cause)?;
        *text = last;
        Ok(Step::Ends(Boxed::new(alloc, summary)?))
    }
}

/// What becomes of a line past the prelude that is bad, where this was found before it, or that
/// found no memory. The last text is put into this one.
///
/// # Errors
/// Want of memory alone.
#[cold]
#[inline(never)]
pub fn failed_step(
    alloc: Global,
    found: Summary,
    number: u64,
    error: LineError,
    text: &mut Vec<u8>,
) -> Result<Step, AllocError>
    ensures { IfOk result (EndsFor found number error text.new.items) }
{
    match error {
        LineError::Bad(cause) => {
            let (last, summary) = bad_ending(alloc, Vec::new(alloc), found, number, cause)?;
            *text = last;
            Ok(Step::Ends(Boxed::new(alloc, summary)?))
        }
        LineError::Memory => Err(AllocError),
    }
}

// The last text and the summary at a bad line, where these lines were kept.
fn bad_ending(
    alloc: Global,
    kept: Vec<u8>,
    found: Summary,
    number: u64,
    cause: Cause,
) -> Result<(Vec<u8>, Summary), AllocError>
    ensures text { IfOk result (λ r. r.0.items ≡ kept.items ++ bad_text number cause) }
    ensures summary { IfOk result (λ r. r.1 ≡ record found { bad = Some (number, cause) }) }
{
    let last = join(kept, bad_text(alloc, number, cause)?.as_bytes())?;
    let summary = Summary {
        bad: Some((number, cause)),
        ..found
    };
    Ok((last, summary))
}
