//! The demonstration, and its exit status.

ghost use Rattle.std.specs.Prelude.{IfErr, IfOk};
ghost use Rattle.wit_demo.specs.Demonstration.{IsCutShort};
ghost use Rattle.witness.specs.Program.{IsDemonstrated};

use std::alloc::Global;
use std::io::Write;
use std::sync::Wait;
use std::thread::Threads;
use wit_demo::demo;
use wit_stream::ReplayError;
use wit_trace::{View, status_of};

/// Runs the demonstration, and gives the exit status: that of a replay that reports what was
/// reported.
///
/// # Errors
/// Those of `demo`.
pub fn demonstrate<R: Threads + Wait + Sync, W: Write>(
    rt: &R,
    alloc: Global,
    output: &mut W,
) -> Result<u8, ReplayError>
    ensures shown { IfOk result (IsDemonstrated (W.contents output.old) (W.contents output.new)) }
    ensures err { IfErr result (IsCutShort (W.contents output.old) (W.contents output.new)) }
{
    let outcome = demo(rt, alloc, output);
    let status = status_of(View::Reports, &outcome);
    match outcome {
        Ok(_) => Ok(status),
        Err(error) => Err(error),
    }
}
