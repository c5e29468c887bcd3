//! A forecast, as the lines of its trace come.

ghost use Rattle.std.specs.Prelude.{◌++◌, ℕ, List, IfOk, OnErr};
ghost use Rattle.wit_model.specs.Trace.Moving.{with_feeds};
ghost use Rattle.wit_stream.specs.Stream.{WritesFront, WritesOutput};
ghost use Rattle.wit_forecast.specs.Forecasts.{Forecasts};
ghost use Rattle.wit_forecast.specs.Owners.{lines_in};
ghost use Rattle.wit_forecast.specs.Forecasting.{allowed, some_forecast};

use crate::answers::{Answer, text_of_all};
use crate::blocks::answers_of;
use crate::reading::Trace;
use std::alloc::{AllocError, Global};
use std::io::{BufRead, Write};
use wit_model::Cause;
use wit_stream::{Failures, Machine, Pace, ReplayError, Step, Summary, bad_text, run};
use wit_trace::{View, replay};

/// Reads a trace of the second version, and writes of each reversal and each two locks of a type a
/// schedule, or a line that says why there is none.
///
/// A schedule that begins as the run did is a reordering of the trace: each seat's lines are a
/// beginning of its lines there. Each one is a trace that ends with seats waiting for one another in a
/// circle, as the view of circles shows.
///
/// # Errors
/// `Read` where the reader failed, `Write` where the writer failed, took no byte or didn't flush,
/// `Memory` where a growth was refused. What was written is then a beginning of the output.
pub fn forecast<R: BufRead, W: Write>(
    alloc: Global,
    input: &mut R,
    output: &mut W,
) -> Result<Summary, ReplayError>
    ensures ok { IfOk result (WritesOutput Forecasts
        (R.remaining input.old) (W.contents output.old) (W.contents output.new)) }
    ensures err { OnErr result (WritesFront Forecasts
        (R.remaining input.old) (W.contents output.old) (W.contents output.new)) }
{
    let mut machine = Forecasting {
        lines: Vec::new(alloc),
        trace: Trace::new(alloc),
    };
    run(
        alloc,
        &mut Failures::new(),
        &mut machine,
        Pace::Gathered,
        input,
        output,
    )
}

/// A forecast in progress: the whole lines so far, and what was read of them.
#[derive(Drop)]
pub(crate) struct Forecasting {
    lines: Vec<Vec<u8>>,
    trace: Trace,
}

impl Forecasting {
    // What is written where the lines that were kept are all.
    fn finish(&mut self, alloc: Global, number: u64) -> Result<(Vec<u8>, Summary), AllocError>
        ensures { IfOk result (λ r.
            Forecasts (with_feeds (lines_in self.old.lines.items)) r.0.items r.1) }
    {
        let summary = summary_of(alloc, &self.lines, b"")?;
        if let Some((number, cause)) = summary.bad {
            return refused(alloc, summary, number, cause);
        }
        if self.trace.is_first_version {
            return refused(alloc, summary, 1, Cause::Version);
        }
        self.trace.end(alloc, number)?;
        let answers = answers_of(alloc, &self.lines, &self.trace)?;
        let text = text_of_all(alloc, &answers)?;
        let circle = answers.iter().any(is_schedule);
        Ok((
            text,
            Summary {
                calls: summary.calls,
                reports: summary.reports,
                circle,
                bad: None,
            },
        ))
    }
}

fn is_schedule(answer: &Answer) -> bool {
    match answer {
        Answer::Schedule(_) | Answer::Errands(_) | Answer::Copies(_) => true,
        Answer::Words(_) => false,
    }
}

// What a replay of these lines, and of these bytes after them, sums up.
fn summary_of(alloc: Global, lines: &[Vec<u8>], tail: &[u8]) -> Result<Summary, AllocError> {
    let mut text = Vec::new(alloc);
    for line in lines {
        text.extend_from_slice(line)?;
        text.push(b'\n')?;
    }
    text.extend_from_slice(tail)?;
    let mut reader = text.as_slice();
    let mut shown = Vec::new(alloc);
    match replay(alloc, &mut reader, &mut shown, View::Locks) {
        Ok(summary) => Ok(summary),
        Err(_) => Err(AllocError),
    }
}

// The text and the summary of a bad line.
fn refused(
    alloc: Global,
    summary: Summary,
    number: u64,
    cause: Cause,
) -> Result<(Vec<u8>, Summary), AllocError>
    ensures { (trace : List ℕ) → IfOk result (λ r. Forecasts trace r.0.items r.1) }
{
    let text = bad_text(alloc, number, cause)?;
    Ok((
        text.into_bytes(),
        Summary {
            calls: summary.calls,
            reports: summary.reports,
            circle: false,
            bad: Some((number, cause)),
        },
    ))
}

impl Machine for Forecasting {
    // There is one way to write.
    type View = ();

    ghost shows_by = { λ m. tt };

    ghost allows = { λ by. allowed };

    ghost reports = { λ m. 0 };

    fn line(
        &mut self,
        alloc: Global,
        number: u64,
        bytes: &[u8],
        _text: &mut Vec<u8>,
    ) -> Result<Step, AllocError> {
        self.trace.enter(alloc, number, bytes)?;
        let line = Vec::from_slice(alloc, bytes)?;
        self.lines.push(line)?;
        Ok(Step::Goes)
    }

    fn broken(
        &mut self,
        alloc: Global,
        number: u64,
        beginning: &[u8],
        cause: Cause,
    ) -> Result<(Vec<u8>, Summary), AllocError> {
        let summary = summary_of(alloc, &self.lines, beginning)?;
        let (number, cause) = summary.bad.unwrap_or((number, cause));
        refused(alloc, summary, number, cause)
    }

    fn end(&mut self, alloc: Global, number: u64) -> Result<(Vec<u8>, Summary), AllocError> {
        self.finish(alloc, number)
    }

    ghost answers = { λ by m n lines tail.
        some_forecast (with_feeds (lines_in m.lines.items ++ lines) ++ tail) };
}
