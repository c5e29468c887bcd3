//! What is made of the lines on standard input.

ghost use Rattle.std.specs.Prelude.{◌≡◌, Err, IfOk, OnErr};
ghost use Rattle.wit_stream.specs.Stream.{WritesFront, WritesOutput};
ghost use Rattle.wit_stream.specs.declared.summary.ReplayError.TheVariants as ReplayError;
ghost use Rattle.witness.specs.Program.{ImportsBy, IsCutShort, IsMade, IsMadeAndExits, Makes};
ghost use Rattle.witness.specs.Program.{Tells, TellsImported, view_of};

use crate::command::{Machine, Source};
use crate::complaints::tell_counts;
use crate::program::Ended;
use std::alloc::Global;
use std::io::{BufRead, BufReader, Read, Write};
use wit_against::judge_orders;
use wit_findings::findings;
use wit_forecast::forecast;
use wit_grades::grade_facts;
use wit_import::{Counts, import};
use wit_kernel::{Settings, Tracer, import_traced};
use wit_merge::merge_orders;
use wit_migrate::migrate;
use wit_stream::{ReplayError, Summary};
use wit_trace::{View, replay, status_of};

// So much of the input is read at once. A migration looks beyond a line for the end of the next one
// only where less than a line of the greatest length is left of it.
const READ_AHEAD: usize = 65_536;

/// Has the machine read the input, and says with which status to exit. What an import counts goes to
/// `notes`.
///
/// # Errors
/// Those of the machine's own call, `replay` for one; and `Memory` where memory runs out before the first line is read.
/// What was written is then a beginning of the output; where the reader failed it is the text of every whole line that was
/// taken, if the machine tells of each line by itself.
pub fn run_machine<R: Read + Drop, W: Write, N: Write>(
    alloc: Global,
    machine: Machine,
    input: R,
    output: &mut W,
    notes: &mut N,
) -> Result<Ended, ReplayError>
    ensures made { IfOk result (IsMadeAndExits machine
        (R.remaining input) (W.contents output.old) (W.contents output.new)) }
    ensures cut_short { OnErr result
        (IsCutShort machine (R.remaining input) (W.contents output.old) (W.contents output.new)) }
    ensures told { result ≡ Err ReplayError.Read → Tells machine
        (R.remaining input) (W.contents output.old) (W.contents output.new) }
{
    let mut counts = Counts::default();
    let made = run_through_buffer(alloc, machine, input, output, &mut counts);
    let status = status_of(view_of(machine), &made);
    let _summary = made?;
    if let Machine::Import(source) = machine {
        tell_counts(notes, source, &counts);
    }
    Ok(Ended::Exits(status))
}

// The view whose exit status the machine has.
#[tactic(auto, unfolding(crate::specs::Program::view_of))]
fn view_of(machine: Machine) -> View
    ensures { result ≡ view_of machine }
{
    match machine {
        Machine::Show(view) => view,
        // A schedule ends in a circle.
        Machine::Forecast => View::Circle,
        Machine::Find | Machine::Judge | Machine::Merge(_) => View::Reports,
        // These report nothing, as a graph.
        Machine::Migrate | Machine::Grade | Machine::Import(_) => View::Graph,
    }
}

// Has the machine read the input through a buffer.
fn run_through_buffer<R: Read + Drop, W: Write>(
    alloc: Global,
    machine: Machine,
    input: R,
    output: &mut W,
    counts: &mut Counts,
) -> Result<Summary, ReplayError>
    ensures ok { IfOk result (IsMade machine
        (R.remaining input) (W.contents output.old) (W.contents output.new)) }
    ensures err { OnErr result
        (IsCutShort machine (R.remaining input) (W.contents output.old) (W.contents output.new)) }
    ensures told { result ≡ Err ReplayError.Read → Tells machine
        (R.remaining input) (W.contents output.old) (W.contents output.new) }
{
    match BufReader::with_capacity(alloc, READ_AHEAD, input) {
        Ok(mut reader) => run_on(alloc, machine, &mut reader, output, counts),
        Err(_) => Err(ReplayError::Memory),
    }
}

// Has the machine read what the reader gives.
#[tactic(auto, unfolding(crate::specs::Program::Makes, crate::specs::Program::Tells, crate::specs::Program::TellsTheSame))]
fn run_on<R: BufRead, W: Write>(
    alloc: Global,
    machine: Machine,
    reader: &mut R,
    output: &mut W,
    counts: &mut Counts,
) -> Result<Summary, ReplayError>
    ensures ok { IfOk result (IsMade machine
        (R.remaining reader.old) (W.contents output.old) (W.contents output.new)) }
    ensures err { OnErr result (WritesFront (Makes machine)
        (R.remaining reader.old) (W.contents output.old) (W.contents output.new)) }
    ensures told { result ≡ Err ReplayError.Read → Tells machine
        (R.remaining reader.old) (W.contents output.old) (W.contents output.new) }
{
    match machine {
        Machine::Show(view) => replay(alloc, reader, output, view),
        Machine::Migrate => migrate(alloc, reader, output),
        Machine::Forecast => forecast(alloc, reader, output),
        Machine::Grade => grade_facts(alloc, reader, output),
        Machine::Find => findings(alloc, reader, output),
        Machine::Judge => judge_orders(alloc, reader, output),
        Machine::Merge(shown) => merge_orders(alloc, shown, reader, output),
        Machine::Import(source) => import_by(alloc, source, reader, output, counts),
    }
}

// Imports what the reader gives, by who wrote it.
#[tactic(auto, unfolding(crate::specs::Program::ImportsBy, crate::specs::Program::TellsImported))]
fn import_by<R: BufRead, W: Write>(
    alloc: Global,
    source: Source,
    reader: &mut R,
    output: &mut W,
    counts: &mut Counts,
) -> Result<Summary, ReplayError>
    ensures ok { IfOk result (WritesOutput (ImportsBy source)
        (R.remaining reader.old) (W.contents output.old) (W.contents output.new)) }
    ensures err { OnErr result (WritesFront (ImportsBy source)
        (R.remaining reader.old) (W.contents output.old) (W.contents output.new)) }
    ensures told { result ≡ Err ReplayError.Read → TellsImported source
        (R.remaining reader.old) (W.contents output.old) (W.contents output.new) }
{
    match source {
        Source::Plain => import(alloc, reader, output, counts),
        Source::Ftrace(encoding) => {
            let settings = Settings {
                interrupts: encoding.interrupts,
                readers: encoding.readers,
            };
            import_traced(alloc, Tracer::Ftrace, settings, reader, output, counts)
        }
        Source::Lttng => {
            let settings = Settings {
                interrupts: false,
                readers: false,
            };
            import_traced(alloc, Tracer::Lttng, settings, reader, output, counts)
        }
    }
}
