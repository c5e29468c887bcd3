//! What the program does with its streams, and its exit status.

ghost use Rattle.std.specs.Prelude.{◌≡◌, Ok, Err, IfOk, OnErr};
ghost use Rattle.std.specs.Io.KnownBytes.{Keeps};
ghost use Rattle.wit_stream.specs.Stream.{WritesOutput};
ghost use Rattle.wit_stream.specs.declared.summary.ReplayError.TheVariants as ReplayError;
ghost use Rattle.wit_orders.specs.Outputs.{Answers};
ghost use Rattle.acyclic.specs.Program.{HasNoCircle, IsAnsweredWhole, IsCutShort};

use std::alloc::Global;
use std::io::{BufReader, Read, Write};
use wit_orders::{check_sequence, status_of};
use wit_stream::{ReplayError, Summary};

// So much of the input is read at once.
const READ_AHEAD: usize = 65_536;

/// Checks the input, writes the answer, and gives the exit status. Only the input is read through a
/// buffer: what is written is in the output when this returns.
///
/// # Errors
/// Those of `check_sequence`; and `Memory` where memory runs out before the first line is read.
/// What was written is then a beginning of the answer, and where reading failed nothing.
pub fn run<R: Read + Drop, W: Write>(
    alloc: Global,
    input: R,
    output: &mut W,
) -> Result<u8, ReplayError>
    ensures answered { IfOk result (IsAnsweredWhole
        (R.remaining input) (W.contents output.old) (W.contents output.new)) }
    ensures acyclic { result ≡ Ok 0 → HasNoCircle (R.remaining input) }
    ensures cut_short { OnErr result (IsCutShort
        (R.remaining input) (W.contents output.old) (W.contents output.new)) }
    ensures silent { result ≡ Err ReplayError.Read
        → Keeps (W.contents output.old) (W.contents output.new) }
{
    let outcome = check_through_buffer(alloc, input, output);
    let status = status_of(&outcome);
    let _summary = outcome?;
    Ok(status)
}

// Checks the input, which is read through a buffer.
fn check_through_buffer<R: Read + Drop, W: Write>(
    alloc: Global,
    input: R,
    output: &mut W,
) -> Result<Summary, ReplayError>
    ensures ok { IfOk result (WritesOutput Answers
        (R.remaining input) (W.contents output.old) (W.contents output.new)) }
    ensures err { OnErr result (IsCutShort
        (R.remaining input) (W.contents output.old) (W.contents output.new)) }
    ensures silent { result ≡ Err ReplayError.Read
        → Keeps (W.contents output.old) (W.contents output.new) }
{
    match BufReader::with_capacity(alloc, READ_AHEAD, input) {
        Ok(mut reader) => check_sequence(alloc, &mut reader, output),
        Err(_) => Err(ReplayError::Memory),
    }
}
