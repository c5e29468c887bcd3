//! How a replay ends: at a bad line, or with what it found.

ghost use Rattle.std.specs.Prelude.{◌≡◌, ◌<◌, ◌^◌, ℕ, [], false, Some, IfOk};
ghost use Rattle.wit_model.specs.declared.lines.Cause.{Cause};
ghost use Rattle.wit_model.specs.Trace.Output.{bad_text, ends, summed};
ghost use Rattle.wit_model.specs.Trace.Output as output;
ghost use Rattle.wit_fields.specs.declared.errors.LineError.TheVariants.{Bad};
ghost use Rattle.wit_lines.specs.declared.view.View.{View};
ghost use Rattle.wit_lines.specs.Replays.{reports_told, total, EndsFor, IsWritten};
ghost use Rattle.wit_trace.specs.Replaying.{progress_of};

use crate::replaying::Progress;
use crate::replaying::driven::Driven;
use crate::replaying::driving::Driving;
use crate::replaying::views::last_text;
use std::alloc::{AllocError, Global};
use wit_grammar::LineError;
use wit_lines::View;
use wit_model::{Boxed, Cause};
use wit_stream::{Step, Summary, bad_text};

impl Progress {
    /// What the replay found so far.
    pub fn summary(&self, circle: bool, bad: Option<(u64, Cause)>) -> Summary
        requires { reports_told (progress_of self.now) < 2 ^ 64 }
        ensures total { total result ≡ summed (progress_of self.now) bad }
        ensures circle { result.circle ≡ circle }
    {
        match self {
            Progress::Reading(driving) => driving.summary(circle, bad),
            Progress::Stepping(driving) => driving.summary(circle, bad),
            Progress::Unstarted | Progress::Opening(_) => Summary {
                calls: 0,
                reports: 0,
                circle,
                bad,
            },
        }
    }

    /// What becomes of a line that is bad, or found no memory. The last text is put into this one.
    ///
    /// # Errors
    /// Want of memory alone.
    #[cold]
    #[inline(never)]
    pub fn ended_step(
        &self,
        alloc: Global,
        number: u64,
        error: LineError,
        text: &mut Vec<u8>,
    ) -> Result<Step, AllocError>
        requires { (cause : Cause) → error ≡ Bad cause
            → reports_told (progress_of self.now) < 2 ^ 64 }
        ensures { (view : View) → IfOk result
            (EndsFor view (progress_of self.now) number error text.new.items) }
    {
        match error {
            LineError::Bad(cause) => {
                let summary = self.summary(false, Some((number, cause)));
                bad_step(alloc, number, cause, summary, text)
            }
            LineError::Memory => Err(AllocError),
        }
    }

    /// The last text and the summary at a bad line.
    ///
    /// # Errors
    /// Want of memory alone.
    pub fn ended(
        &self,
        alloc: Global,
        number: u64,
        cause: Cause,
    ) -> Result<(Vec<u8>, Summary), AllocError>
        requires { reports_told (progress_of self.now) < 2 ^ 64 }
        ensures text { IfOk result (λ r. r.0.items ≡ bad_text number cause) }
        ensures total { IfOk result (λ r. total r.1
            ≡ summed (progress_of self.now) (Some (number, cause))) }
        ensures circle { IfOk result (λ r. r.1.circle ≡ false) }
    {
        let text = bad_text(alloc, number, cause)?;
        let summary = self.summary(false, Some((number, cause)));
        Ok((text.into_bytes(), summary))
    }
}

impl<D: Driven> Driving<D> {
    /// What the replay found so far.
    pub fn summary(&self, circle: bool, bad: Option<(u64, Cause)>) -> Summary
        requires { reports_told (D.reading self.now.driven self.now.remarks) < 2 ^ 64 }
        ensures total { total result ≡ summed (D.reading self.now.driven self.now.remarks) bad }
        ensures circle { result.circle ≡ circle }
    {
        let verifier = self.driven.verifier();
        Summary {
            calls: verifier.history().len() as u64,
            reports: u64::from(verifier.reports()) + self.remarks,
            circle,
            bad,
        }
    }

    /// What becomes of a line that is bad, or found no memory. The last text is put into this one.
    ///
    /// # Errors
    /// Want of memory alone.
    #[cold]
    #[inline(never)]
    pub fn ended_step(
        &self,
        alloc: Global,
        number: u64,
        error: LineError,
        text: &mut Vec<u8>,
    ) -> Result<Step, AllocError>
        requires { (cause : Cause) → error ≡ Bad cause
            → reports_told (D.reading self.now.driven self.now.remarks) < 2 ^ 64 }
        ensures { (view : View) → IfOk result (EndsFor view
            (D.reading self.now.driven self.now.remarks) number error text.new.items) }
    {
        match error {
            LineError::Bad(cause) => {
                let summary = self.summary(false, Some((number, cause)));
                bad_step(alloc, number, cause, summary, text)
            }
            LineError::Memory => Err(AllocError),
        }
    }

    /// The last text and the summary after the whole trace. `against` is the line that keeps the log
    /// from being clean.
    ///
    /// # Errors
    /// Want of memory alone.
    pub fn ended(
        &self,
        alloc: Global,
        view: View,
        against: u64,
    ) -> Result<(Vec<u8>, Summary), AllocError>
        requires { reports_told (D.reading self.now.driven self.now.remarks) < 2 ^ 64 }
        ensures { (number : ℕ) → IfOk result (λ r. IsWritten view
            (ends (D.reading self.now.driven self.now.remarks) number []) r.0.items r.1) }
    {
        // A last text fails for want of memory alone.
        let Ok((text, circle)) = last_text(alloc, view, &self.driven, against) else {
            return Err(AllocError);
        };
        Ok((text, self.summary(circle, None)))
    }
}

// The step that ends at a bad line. Its text is put into this one.
fn bad_step(
    alloc: Global,
    number: u64,
    cause: Cause,
    summary: Summary,
    text: &mut Vec<u8>,
) -> Result<Step, AllocError>
    requires circle { summary.circle ≡ false }
    ensures { (view : View) (p : output.Progress) → total summary ≡ summed p (Some (number, cause))
        → IfOk result (EndsFor view p number (Bad cause) text.new.items) }
{
    let last = bad_text(alloc, number, cause)?;
    *text = last.into_bytes();
    Ok(Step::Ends(Boxed::new(alloc, summary)?))
}
