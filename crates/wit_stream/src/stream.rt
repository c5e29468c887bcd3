//! A stream of lines through a machine.

ghost use Rattle.std.specs.Prelude.{◌≡◌, ◌≢◌, ◌⊎◌, ◌++◌, [], IsTrue, IfOk, OnOk, OnErr};
ghost use Rattle.wit_stream.specs.Stream.{AppendsFront, IsSpent, OutputFrom, ReadsToEnd};
ghost use Rattle.wit_stream.specs.Stream.{AppendsAndKeeps, WritesFront, WritesLines, WritesOutput};

use crate::machine::{Machine, Step};
use crate::ports::Ports;
use crate::summary::{ReplayError, Summary};
use std::alloc::Global;
use std::io::{BufRead, Write};

/// When a text is written.
#[derive(Clone, Copy, Debug)]
pub enum Pace {
    /// Before the reader is looked at again.
    AtOnce,
    /// With those of the lines behind it that the reader shows, before a look that may have to
    /// wait.
    Gathered,
}

/// Reads the lines of a stream through a machine, and writes its texts as they come, at this pace.
///
/// It reads until the machine ends or the input does, and keeps one line of at most 4,097 bytes.
/// Every call returns: once the looks at the reader and the lines read together come to
/// 18,446,744,073,709,551,615, the reader counts as failed.
///
/// # Errors
/// `Read` where the reader failed, `Write` where the writer failed, took no byte or didn't flush,
/// `Memory` where a growth was refused. What was written is then a beginning of an output; after
/// `Read` it is the text of every whole line that was taken.
pub fn run<R: BufRead, W: Write, P: Ports<R, W>, M: Machine>(
    alloc: Global,
    ports: &mut P,
    machine: &mut M,
    pace: Pace,
    reader: &mut R,
    writer: &mut W,
) -> Result<Summary, ReplayError>
    requires unused { P.looks ports.old ≡ 0 }
    requires fresh { M.reports machine.old ≡ 0 }
    ensures ok { IfOk result (WritesOutput
        (OutputFrom (M.allows (M.shows_by machine.old)) machine.old 1)
        (R.remaining reader.old) (W.contents writer.old) (W.contents writer.new)) }
    ensures err { OnErr result (WritesFront
        (OutputFrom (M.allows (M.shows_by machine.old)) machine.old 1)
        (R.remaining reader.old) (W.contents writer.old) (W.contents writer.new)) }
    ensures taken { IfOk result (ReadsToEnd
        (OutputFrom (M.allows (M.shows_by machine.old))) machine.old
        (R.remaining reader.old) (R.remaining reader.new) (W.contents writer.old)
        (W.contents writer.new)) }
    ensures told { result ≡ Err ReplayError.Read
        → WritesLines (OutputFrom (M.allows (M.shows_by machine.old))) machine.old
        (R.remaining reader.old) (R.remaining reader.new) (W.contents writer.old)
        (W.contents writer.new) }
    ensures read { result ≡ Err ReplayError.Read → IsTrue (P.read_failed ports.new)
        ⊎ IsSpent (R.remaining reader.old) (R.remaining reader.new) (P.looks ports.new) }
    ensures write { result ≡ Err ReplayError.Write → IsTrue (P.write_failed ports.new) }
{
    let mut line = Vec::new(alloc);
    let mut text = Vec::new(alloc);
    let mut told = Vec::new(alloc);
    let mut number = 1;
    let mut left = u64::MAX;
    while left > 0 {
        left -= 1;
        match ports.advance(alloc, machine, number, reader, &mut line, &mut text) {
            Ok(Some(Step::Goes)) => {
                tell(ports, writer, pace, &mut told, &text)?;
                text.clear();
                number += 1;
                left = left.saturating_sub(1);
            }
            Ok(Some(Step::Ends(summary))) => {
                tell_all(ports, writer, &mut told)?;
                ports.put(writer, &text)?;
                return Ok(*summary.get());
            }
            Ok(None) => tell_all(ports, writer, &mut told)?,
            Err(error) => {
                tell_all(ports, writer, &mut told)?;
                return Err(error);
            }
        }
    }
    tell_all(ports, writer, &mut told)?;
    Err(ReplayError::Read)
}

// So much is gathered at most, and one text more.
const FULL: usize = 65_536;

// Tells a text, behind what was told and isn't written yet. Where texts are gathered, all of it is
// written when it is much, and else before a look that may have to wait: to write each by itself
// would take as long as to read its line.
#[inline(always)]
fn tell<R: BufRead, W: Write, P: Ports<R, W>>(
    ports: &mut P,
    writer: &mut W,
    pace: Pace,
    told: &mut Vec<u8>,
    text: &[u8],
) -> Result<(), ReplayError>
    ensures ok { OnOk result (AppendsAndKeeps (W.contents writer.old) (W.contents writer.new)
        (told.old.items ++ text.now) told.new.items) }
    ensures err { OnErr result (AppendsFront (W.contents writer.old) (W.contents writer.new)
        (told.old.items ++ text.now)) }
    ensures counted { P.looks ports.new ≡ P.looks ports.old }
    ensures not_read { result ≢ Err ReplayError.Read }
    ensures failed { result ≡ Err ReplayError.Write → IsTrue (P.write_failed ports.new) }
{
    // So it is behind most lines of a replay.
    if text.is_empty() && told.is_empty() {
        return Ok(());
    }
    told.extend_from_slice(text)?;
    match pace {
        Pace::Gathered if !ports.may_wait() && told.len() < FULL => Ok(()),
        Pace::AtOnce | Pace::Gathered => tell_all(ports, writer, told),
    }
}

// Writes all that was told and isn't written yet.
#[inline(never)]
fn tell_all<R: BufRead, W: Write, P: Ports<R, W>>(
    ports: &mut P,
    writer: &mut W,
    told: &mut Vec<u8>,
) -> Result<(), ReplayError>
    ensures ok { OnOk result (AppendsAndKeeps (W.contents writer.old)
        (W.contents writer.new) told.old.items []) }
    ensures none { OnOk result (told.new.items ≡ []) }
    ensures err { OnErr result (AppendsFront (W.contents writer.old)
        (W.contents writer.new) told.old.items) }
    ensures counted { P.looks ports.new ≡ P.looks ports.old }
    ensures read { P.read_failed ports.new ≡ P.read_failed ports.old }
    ensures failed { OnErr result (IsTrue (P.write_failed ports.new)) }
    ensures only_write { OnErr result (result ≡ Err ReplayError.Write) }
{
    ports.put(writer, told)?;
    told.clear();
    Ok(())
}
