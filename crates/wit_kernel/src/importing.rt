//! An import of a tracer's lines, which is written once they are all read.

ghost use Rattle.std.specs.Prelude.{◌≡◌, IfOk, OnErr, OnOk};
ghost use Rattle.wit_stream.specs.Stream.{WritesFront, WritesOutput};
ghost use Rattle.wit_gathered.specs.Gathering.{gathered};
ghost use Rattle.wit_import.specs.Outputs.{IsOutput, some_output};
ghost use Rattle.wit_kernel.specs.Outputs.{Imports, allowed, gathering, output_from, whole};

use crate::telling::trace_of;
use std::alloc::{AllocError, Global};
use std::io::{BufRead, Write};
use wit_gathered::{Gathering, Settings};
use wit_import::Counts;
use wit_model::Cause;
use wit_stream::{Failures, Machine, Pace, ReplayError, Step, Summary, bad_text, run};

/// Who printed the lines.
#[derive(Clone, Copy, Debug, PartialEq, Eq)]
pub enum Tracer {
    /// ftrace: events of kprobes, or what lockdep is told.
    Ftrace,
    /// babeltrace2, of LTTng's pthread wrapper.
    Lttng,
}

/// Reads lines of a tracer to their end, and writes the trace of the events that are gathered of them. A last line that the input ends in is passed over. One that is too long ends the reading: its
/// number and cause are written behind the trace of those before it.
///
/// # Errors
/// `Read` where the reader failed, `Write` where the writer failed, took no byte or didn't flush,
/// `Memory` where a growth was refused. What was written is then a beginning of such a trace.
pub fn import_traced<R: BufRead, W: Write>(
    alloc: Global,
    source: Tracer,
    settings: Settings,
    input: &mut R,
    output: &mut W,
    counts: &mut Counts,
) -> Result<Summary, ReplayError>
    ensures ok { IfOk result (WritesOutput (Imports source settings)
        (R.remaining input.old) (W.contents output.old) (W.contents output.new)) }
    ensures err { OnErr result (WritesFront (Imports source settings)
        (R.remaining input.old) (W.contents output.old) (W.contents output.new)) }
{
    let mut machine = Gatherer {
        source,
        gathering: Gathering::new(alloc, settings),
        counts: Counts::default(),
    };
    let ended = run(
        alloc,
        &mut Failures::new(),
        &mut machine,
        Pace::Gathered,
        input,
        output,
    );
    *counts = machine.counts;
    ended
}

/// An import in progress.
#[derive(Drop)]
pub(crate) struct Gatherer {
    source: Tracer,
    gathering: Gathering,
    counts: Counts,
}

impl Gatherer {
    fn take(&mut self, line: &[u8]) -> Result<(), AllocError>
        ensures gathered { OnOk result (gathered self.new.gathering
            ≡ gathering self.old.source (gathered self.old.gathering) line.now) }
        ensures source { OnOk result (self.new.source ≡ self.old.source) }
    {
        match self.source {
            Tracer::Ftrace => self.gathering.take(line),
            Tracer::Lttng => self.gathering.take_mutex(line),
        }
    }

    // The whole text, with the bad line behind it, and its summary.
    fn whole(
        &mut self,
        alloc: Global,
        bad: Option<(u64, Cause)>,
    ) -> Result<(Vec<u8>, Summary), AllocError>
        ensures { IfOk result (λ r. IsOutput (whole (gathered self.old.gathering) bad) r.0.items r.1) }
    {
        let (mut text, counts) = trace_of(alloc, &self.gathering)?;
        self.counts = counts;
        if let Some((number, cause)) = bad {
            let last = bad_text(alloc, number, cause)?;
            text.extend_from_slice(last.as_bytes())?;
        }
        let summary = Summary {
            calls: 0,
            reports: 0,
            circle: false,
            bad,
        };
        Ok((text, summary))
    }
}

impl Machine for Gatherer {
    // There is one way to write.
    type View = ();

    ghost shows_by = { λ m. tt };

    ghost allows = { λ by. allowed };

    ghost reports = { λ m. 0 };

    fn line(
        &mut self,
        alloc: Global,
        number: u64,
        bytes: &[u8],
        text: &mut Vec<u8>,
    ) -> Result<Step, AllocError> {
        self.take(bytes)?;
        Ok(Step::Goes)
    }

    fn broken(
        &mut self,
        alloc: Global,
        number: u64,
        beginning: &[u8],
        cause: Cause,
    ) -> Result<(Vec<u8>, Summary), AllocError> {
        match cause {
            Cause::Cut => self.whole(alloc, None),
            _ => self.whole(alloc, Some((number, cause))),
        }
    }

    fn end(&mut self, alloc: Global, number: u64) -> Result<(Vec<u8>, Summary), AllocError> {
        self.whole(alloc, None)
    }

    ghost answers = { λ by m n lines tail.
        some_output (output_from m.source (gathered m.gathering) n lines tail) };
}
