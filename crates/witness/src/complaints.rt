//! What goes to standard error: how the program is used, why a replay failed, and what an import counts.

ghost use Rattle.std.specs.Prelude.{◌≡◌};

use crate::command::Source;
use std::io::Write;
use wit_import::Counts;
use wit_stream::ReplayError;
use wit_trace::FAILED;

/// The exit status where the command line is no use of the program.
pub const BAD_USAGE: u8 = 2;

/// How the program is used.
pub const USAGE: &str = "usage: witness replay|graph|locks|circle|state|clean < TRACE
       witness migrate|forecast < TRACE
       witness grade < FACTS
       witness findings < RECORDING
       witness orders judge < ORDERS
       witness orders merge|text < FILES
       witness orders unseen RUNS < FILES
       witness html|sarif|text|dot|pictures < REPORT
       witness import plain|lttng < LINES
       witness import ftrace [--no-irq] [--no-readers] < LINES
       witness demo

Reads a trace of lock calls from standard input, and writes
  replay   the text of each report, failed assertion and warning as it comes
  graph    the direct orders between lock types, after the whole trace
  locks    the locks that the seats hold, after the whole trace
  circle   a circle of seats that wait for one another, or that there is none, after the whole trace
  state    the reports as they come, and what is known after the whole trace, for programs: its fields are parted by tabs
  clean    whether the trace is clean, after the whole trace: if not, which line stands against it, and why
  migrate  the trace in the second version of the format, in which it tells each step of the locks themselves
  forecast how threads could have come to hang, of each report of such a trace: its lines in another sequence
With grade it reads facts in place of a trace: which lock a thread asked for while it held another. At each line that asks
for it, it writes whether threads can wait for one another so, and if not, what keeps them from it.
With findings it reads what the recorder wrote of a program: it writes each report, each order, and what stands against them,
a JSON object a line, as soon as it is known.
With orders judge it reads orders of lock types, a line each. It writes each that closes a circle with those before it, below
it those that lead back, set in and as few as can be, and last how many there are.
With orders merge, text and unseen it reads files of orders, as record --learn writes them. It writes their orders, each once:
with how many runs met each (merge), for people (text), or those that the last so many runs didn't meet (unseen).
With html, sarif and text it reads the JSON report of record --json, and writes a page for people, a log of SARIF, or what was
told, for a terminal. With dot it writes the orders of each process for Graphviz, with pictures the graphs that a page shows.
With import it reads lines that tell how threads acquire and release locks, and writes a trace: of a script (plain), of the
kernel's ftrace, or of LTTng's pthread wrapper. With --no-irq an interrupt stands for no lock, with --no-readers recursive
readers are told as others are. What is left out of the trace is counted on standard error.
With demo it reads nothing: threads take two locks in one order, and then one takes them in the other, which is reported.
Status: 0 nothing was reported, 1 something was reported (replay, state, findings, orders, demo), the trace isn't clean (clean), there is a circle
(circle) or a schedule (forecast), 2 bad usage, 3 a bad line (the output says which and why) or no JSON report, 4 no memory, or
reading or writing failed.
The format of a trace: docs/man/witness-trace.5; of facts and grades: docs/man/witness-grade.5; of recordings and findings:
docs/man/witness-findings.5; of lines: docs/man/witness-import.1; of orders: docs/man/orders.1
";

/// Says how the program is used, and gives the status of bad usage. The status alone tells it where
/// nothing can be said.
pub fn refuse<W: Write>(complaints: &mut W) -> u8
    ensures { result ≡ 2 }
{
    let _ = complaints.write_all(USAGE.as_bytes());
    BAD_USAGE
}

/// Says why a replay failed, and gives the status of a failure. The status alone tells it where
/// nothing can be said.
pub fn fail<W: Write>(complaints: &mut W, error: &ReplayError) -> u8
    ensures { result ≡ 4 }
{
    let _ = writeln!(complaints, "witness: {error}");
    FAILED
}

/// Tells what an import counts, where it isn't 0.
pub fn tell_counts<W: Write>(notes: &mut W, source: Source, counts: &Counts) {
    let (left_out, unheld) = (counts.left_out, counts.unheld);
    if left_out > 0 {
        let _ = writeln!(
            notes,
            "witness: left out for want of room for their types: {left_out}"
        );
    }
    if unheld > 0 {
        let _ = writeln!(
            notes,
            "witness: releases of what nobody was seen to hold: {unheld}"
        );
    }
    if counts.lost > 0 {
        let lost = counts.lost;
        let _ = writeln!(
            notes,
            "witness: events are missing, at so many places: {lost}"
        );
    }
    if counts.passed > 0 && source != Source::Plain {
        let passed = counts.passed;
        let _ = writeln!(notes, "witness: lines that tell nothing of locks: {passed}");
    }
}
