//! The replay of a trace by the verifier.

ghost use Rattle.std.specs.Prelude.{◌≡◌, ◌⊎◌, ◌<◌, ℕ, IsTrue, IfOk, OnErr};
ghost use Rattle.wit_model.specs.Trace.Output.{Unstarted};
ghost use Rattle.wit_lines.specs.Outputs.{some_output};
ghost use Rattle.wit_lines.specs.Replays.{reports_told, IsRead, MayReadAt};
ghost use Rattle.wit_lines.specs.Replays.{ShowsTrace, ShowsFrom};
ghost use Rattle.wit_trace.specs.Replaying.{allowed, progress};
ghost use Rattle.wit_stream.specs.Stream.{IsSpent, ReadsToEnd, WritesFront, WritesLines};
ghost use Rattle.wit_stream.specs.Stream.{WritesOutput};

mod driven;
mod driving;
mod endings;
mod entering;
mod opening;
mod reaching;
mod views;

use driven::Driven;
use driving::Driving;
use std::alloc::{AllocError, Global};
use std::io::{BufRead, Write};
use views::show;
use wit_core::Verifier;
use wit_grammar::{LineError, begin_line};
use wit_lines::{Prelude, View, read_line, read_step_line};
use wit_model::Cause;
use wit_state::ends_hindered;
use wit_stream::{Failures, Machine, Pace, Ports, ReplayError, Step, Summary, run};
use wit_world::World;

/// Reads a trace, and writes what the view shows of it: for `Reports` and `State` the texts of the
/// reports, failed assertions and warnings as they come; for each view but `Reports` its text after the
/// whole trace. At a bad line the reading ends: its number and cause are written, and for views but
/// `Reports` and `State` nothing else.
///
/// A text is written and flushed before the reader is looked at again. After `Ok` exactly the lines
/// up to the one that ended the reading were taken, of one that is too long its first 4,097 bytes.
///
/// It keeps, beside the verifier, no more than one line of the input and, up to the end of the
/// prelude, the lists and pairs there. A list that is refused is a bad line, found where the
/// prelude ends. It returns for every reader: once the looks at it and the lines read together come
/// to 18,446,744,073,709,551,615, the reader counts as failed.
///
/// # Errors
/// `Read` where the reader failed: what was written is then the text of every whole line that was
/// taken. `Write` where the writer failed, took no byte or didn't flush, `Memory` where a growth
/// was refused: what was written is then a beginning of an output.
pub fn replay<R: BufRead, W: Write>(
    alloc: Global,
    input: &mut R,
    output: &mut W,
    view: View,
) -> Result<Summary, ReplayError>
    ensures ok { IfOk result (WritesOutput (ShowsTrace view)
        (R.remaining input.old) (W.contents output.old) (W.contents output.new)) }
    ensures err { OnErr result (WritesFront (ShowsTrace view)
        (R.remaining input.old) (W.contents output.old) (W.contents output.new)) }
    ensures taken { IfOk result (ReadsToEnd (ShowsFrom view) Unstarted
        (R.remaining input.old) (R.remaining input.new) (W.contents output.old)
        (W.contents output.new)) }
    ensures told { result ≡ Err ReplayError.Read → WritesLines (ShowsFrom view) Unstarted
        (R.remaining input.old) (R.remaining input.new) (W.contents output.old)
        (W.contents output.new) }
{
    replay_through(alloc, &mut Failures::new(), input, output, view)
}

/// A replay as `replay` makes it, through unused ports that keep the evidence of failures.
///
/// # Errors
/// As those of `replay`. `Read` comes only where the ports have seen the reader fail, or where the
/// looks and the lines are spent; `Write` only where they have seen the writer fail.
pub fn replay_through<R: BufRead, W: Write, P: Ports<R, W>>(
    alloc: Global,
    ports: &mut P,
    input: &mut R,
    output: &mut W,
    view: View,
) -> Result<Summary, ReplayError>
    requires { P.looks ports.old ≡ 0 }
    ensures ok { IfOk result (WritesOutput (ShowsTrace view)
        (R.remaining input.old) (W.contents output.old) (W.contents output.new)) }
    ensures err { OnErr result (WritesFront (ShowsTrace view)
        (R.remaining input.old) (W.contents output.old) (W.contents output.new)) }
    ensures taken { IfOk result (ReadsToEnd (ShowsFrom view) Unstarted
        (R.remaining input.old) (R.remaining input.new) (W.contents output.old)
        (W.contents output.new)) }
    ensures told { result ≡ Err ReplayError.Read → WritesLines (ShowsFrom view) Unstarted
        (R.remaining input.old) (R.remaining input.new) (W.contents output.old)
        (W.contents output.new) }
    ensures read { result ≡ Err ReplayError.Read → IsTrue (P.read_failed ports.new)
        ⊎ IsSpent (R.remaining input.old) (R.remaining input.new) (P.looks ports.new) }
    ensures write { result ≡ Err ReplayError.Write → IsTrue (P.write_failed ports.new) }
{
    let mut machine = Replaying {
        view,
        progress: Progress::Unstarted,
        against: 0,
    };
    run(alloc, ports, &mut machine, Pace::AtOnce, input, output)
}

/// A replay in progress.
#[derive(Drop)]
pub(crate) struct Replaying {
    /// What is shown of it.
    view: View,
    progress: Progress,
    /// The first line that keeps the log from being clean, where that is told; 0 for none.
    against: u64,
}

/// How far a replay is.
#[derive(Drop)]
pub(crate) enum Progress {
    /// The header wasn't read.
    Unstarted,
    /// The prelude goes on.
    Opening(Prelude),
    /// The prelude is over.
    Reading(Driving<Verifier>),
    /// The prelude of a trace of the second version is over.
    Stepping(Driving<World>),
}

impl Replaying {
    // A whole line.
    #[inline(always)]
    fn whole_line(
        &mut self,
        alloc: Global,
        number: u64,
        bytes: &[u8],
        text: &mut Vec<u8>,
    ) -> Result<Step, AllocError>
        requires { MayReadAt (progress self.old) number bytes.now text.old.items }
        ensures view { self.new.view ≡ self.old.view }
        ensures read { IfOk result (IsRead self.old.view (progress self.old) number bytes.now
            (progress self.new) text.new.items) }
    {
        let view = self.view;
        match &mut self.progress {
            Progress::Reading(driving) => read_line(driving, alloc, view, number, bytes, text),
            Progress::Stepping(driving) => {
                read_step_line(driving, alloc, view, number, bytes, text)
            }
            _ => self.opening_line(alloc, number, bytes, text),
        }
    }

    // A line before the prelude is over, or that ends it. By itself, so that no other pays for it.
    #[inline(never)]
    fn opening_line(
        &mut self,
        alloc: Global,
        number: u64,
        bytes: &[u8],
        text: &mut Vec<u8>,
    ) -> Result<Step, AllocError>
        requires { MayReadAt (progress self.old) number bytes.now text.old.items }
        ensures view { self.new.view ≡ self.old.view }
        ensures read { IfOk result (IsRead self.old.view (progress self.old) number bytes.now
            (progress self.new) text.new.items) }
    {
        if let Some((number, cause)) = self.progress.reach(alloc, number, bytes)? {
            return self
                .progress
                .ended_step(alloc, number, LineError::Bad(cause), text);
        }
        match self.progress.read(alloc, number, begin_line(bytes)) {
            Ok(told) => {
                show(alloc, self.view, told, text);
                Ok(Step::Goes)
            }
            Err(error) => self.progress.ended_step(alloc, number, error, text),
        }
    }

    // Keeps the number of the line that was read, where it is the first that keeps the log from being
    // clean, and that is told.
    #[inline(always)]
    fn mark(&mut self, number: u64)
        ensures { self.new ≡ record self.old { against = self.new.against } }
    {
        if tells_hindrance(self.view) && self.against == 0 && self.progress.is_hindered() {
            self.against = number;
        }
    }
}

impl Progress {
    // Whether the line that was read last keeps the log from being clean; one that makes no call does
    // where the call before it does.
    fn is_hindered(&self) -> bool {
        match self {
            Progress::Unstarted => false,
            Progress::Opening(prelude) => prelude.blesses(),
            Progress::Reading(driving) => ends_hindered(driving.driven.verifier()),
            Progress::Stepping(driving) => ends_hindered(driving.driven.verifier()),
        }
    }
}

// Whether a view tells which line keeps the log from being clean.
fn tells_hindrance(view: View) -> bool {
    match view {
        View::Reports | View::Graph | View::Locks | View::Circle => false,
        View::State | View::Clean => true,
    }
}

impl Machine for Replaying {
    type View = View;

    ghost shows_by = { λ m. m.view };

    ghost allows = { allowed };

    ghost reports = { λ m. reports_told (progress m) };

    fn line(
        &mut self,
        alloc: Global,
        number: u64,
        bytes: &[u8],
        text: &mut Vec<u8>,
    ) -> Result<Step, AllocError> {
        let step = self.whole_line(alloc, number, bytes, text)?;
        self.mark(number);
        Ok(step)
    }

    fn broken(
        &mut self,
        alloc: Global,
        number: u64,
        beginning: &[u8],
        cause: Cause,
    ) -> Result<(Vec<u8>, Summary), AllocError> {
        let (number, cause) = self
            .progress
            .reach(alloc, number, beginning)?
            .unwrap_or((number, cause));
        self.progress.ended(alloc, number, cause)
    }

    fn end(&mut self, alloc: Global, number: u64) -> Result<(Vec<u8>, Summary), AllocError> {
        if let Some((number, cause)) = self.progress.reach(alloc, number, b"")? {
            return self.progress.ended(alloc, number, cause);
        }
        match &self.progress {
            Progress::Reading(driving) => driving.ended(alloc, self.view, self.against),
            Progress::Stepping(driving) => driving.ended(alloc, self.view, self.against),
            Progress::Unstarted | Progress::Opening(_) => {
                self.progress.ended(alloc, number, Cause::Cut)
            }
        }
    }

    ghost answers = { λ by m n lines tail. some_output by (progress m) n lines tail };
}
