//! What the program does: its words, its streams and its exit status.

ghost use Rattle.std.specs.Prelude.{◌≡◌, ◌≢◌, ◌⊎◌, Ok, Err, IfOk, OnErr, None, Some};
ghost use Rattle.std.specs.Io.KnownBytes.{Keeps};
ghost use Rattle.wit_stream.specs.declared.summary.ReplayError.TheVariants as ReplayError;
ghost use Rattle.wit_stream.specs.declared.summary.ReplayError.TheVariants.{Memory};
ghost use Rattle.witness.specs.CommandLine.{asked, bytes_of};
ghost use Rattle.witness.specs.Program.{IsCutShort, IsMadeAndExits, IsWrittenOrRefused, Tells};
ghost use Rattle.witness.specs.declared.command.Command.TheVariants.{Demo, Run};
ghost use Rattle.witness.specs.declared.command.Command.TheVariants.{Write as Document};
ghost use Rattle.witness.specs.declared.command.Form.{Form};
ghost use Rattle.witness.specs.declared.command.Machine.{Machine};
ghost use Rattle.witness.specs.declared.program.Ended.TheVariants.{Exits, ShowsThreads};

use crate::command::Command;
use crate::command_line::asked_command;
use crate::complaints::refuse;
use crate::documents::write_document;
use crate::machines::run_machine;
use std::alloc::Global;
use std::io::{Read, Write};
use wit_stream::ReplayError;

/// What is left to do.
#[derive(Clone, Copy, Debug, PartialEq, Eq)]
pub enum Ended {
    /// To exit, with this status.
    Exits(u8),
    /// The demonstration, for which threads are needed.
    ShowsThreads,
}

/// Runs the program on the words behind its name, up to its exit status: that of the machine that they ask for, or of
/// the document; 2 where they ask for nothing. The demonstration is left to the caller.
///
/// Only the input is read through a buffer: what is written is in the output when this returns.
/// What goes to `complaints` is how the program is used, at status 2, and nothing else. What an import
/// counts goes to `notes`, and that the input is no report.
///
/// # Errors
/// Those of `run_machine` and `write_document`; and `Memory` where memory runs out before the words are read. What was
/// written is then a beginning of the output.
pub fn run<R: Read + Drop, W: Write, N: Write, E: Write>(
    alloc: Global,
    words: &[Vec<u8>],
    input: R,
    output: &mut W,
    notes: &mut N,
    complaints: &mut E,
) -> Result<Ended, ReplayError>
    ensures usage { asked (bytes_of words.now) ≡ None → (result ≡ Ok (Exits 2))
        ⊎ (result ≡ Err Memory) }
    ensures unread { asked (bytes_of words.now) ≡ None
        → Keeps (W.contents output.old) (W.contents output.new) }
    ensures demo { asked (bytes_of words.now) ≡ Some Demo → (result ≡ Ok ShowsThreads)
        ⊎ (result ≡ Err Memory) }
    ensures untouched { asked (bytes_of words.now) ≡ Some Demo
        → Keeps (W.contents output.old) (W.contents output.new) }
    ensures made { (machine : Machine) → asked (bytes_of words.now) ≡ Some (Run machine)
        → IfOk result (IsMadeAndExits machine (R.remaining input) (W.contents output.old)
        (W.contents output.new)) }
    ensures cut_short { (machine : Machine) → asked (bytes_of words.now) ≡ Some (Run machine)
        → OnErr result (IsCutShort machine (R.remaining input) (W.contents output.old)
        (W.contents output.new)) }
    ensures told { (machine : Machine) → asked (bytes_of words.now) ≡ Some (Run machine)
        → result ≡ Err ReplayError.Read
        → Tells machine (R.remaining input) (W.contents output.old) (W.contents output.new) }
    ensures document { (form : Form) → asked (bytes_of words.now) ≡ Some (Document form)
        → IfOk result (IsWrittenOrRefused (R.remaining input) (W.contents output.old)
        (W.contents output.new)) }
    ensures quiet { result ≢ Ok (Exits 2)
        → Keeps (E.contents complaints.old) (E.contents complaints.new) }
{
    match asked_command(alloc, words) {
        Ok(Some(Command::Run(machine))) => run_machine(alloc, machine, input, output, notes),
        Ok(Some(Command::Write(form))) => write_document(alloc, form, input, output, notes),
        Ok(Some(Command::Demo)) => Ok(Ended::ShowsThreads),
        Ok(None) => Ok(Ended::Exits(refuse(complaints))),
        Err(error) => Err(ReplayError::from(error)),
    }
}
