//! One look at a reader, one text to a writer, and the evidence of their failures.

ghost use Rattle.std.specs.Prelude.{◌≡◌, ◌≢◌, ℕ, ◌+◌, ◌-◌, ◌^◌, ◌<◌, ◌≤◌, Bool, [], length, Ok};
ghost use Rattle.std.specs.Prelude.{Some, IsTrue, IfOk, OnOk, OnErr};
ghost use Rattle.std.specs.Io.KnownBytes.{Appends, Keeps};
ghost use Rattle.wit_stream.specs.Text.{HasNoFeed};
ghost use Rattle.wit_stream.specs.declared.machine.Step.TheVariants.{Goes};
ghost use Rattle.wit_stream.specs.Stream.{Advances, AppendsFront, OutputFrom, has_read_failed};
ghost use Rattle.wit_stream.specs.Stream.{has_write_failed, no_failure};

use crate::lines::{at_end, at_long, feed_in, may_wait, whole_line};
use crate::machine::{Machine, Step};
use crate::summary::ReplayError;
use std::alloc::Global;
use std::io::{BufRead, Write};
use wit_grammar::LONGEST;

/// The only ways to look at a reader and to write, with the evidence of what failed.
///
/// Code that is generic over its ports can't claim a failure that they didn't have.
pub trait Ports<R: BufRead, W: Write> {
    ghost read_failed: { Self → Bool };

    ghost write_failed: { Self → Bool };

    ghost looks: { Self → ℕ };

    ghost waits: { Self → Bool };

    /// Looks at the reader once, and takes what it shows of a line, behind what was begun of it:
    /// `None` where the line goes on. A line that the reader shows whole goes to the machine
    /// without a copy. What is to be written of it is put into the text.
    ///
    /// # Errors
    /// `Read` where the reader failed, of which nothing is taken then; `Memory` where the machine
    /// found none, what was begun couldn't grow, or the summary found no room.
    fn advance<M: Machine>(
        &mut self,
        alloc: Global,
        machine: &mut M,
        number: u64,
        reader: &mut R,
        begun: &mut Vec<u8>,
        text: &mut Vec<u8>,
    ) -> Result<Option<Step>, ReplayError>
        requires room { looks self.old < 2 ^ 64 - 1 }
        requires empty { text.old.items ≡ [] }
        requires counts { M.reports machine.old < number }
        requires plain { HasNoFeed begun.old.items }
        requires short { length begun.old.items ≤ LONGEST }
        ensures ok { IfOk result (Advances (OutputFrom (M.allows (M.shows_by machine.old)))
            machine.old machine.new number
            (R.remaining reader.old) (R.remaining reader.new) begun.old.items begun.new.items
            text.new.items) }
        ensures kept { result ≡ Err ReplayError.Read
            → Keeps (R.remaining reader.old) (R.remaining reader.new) }
        ensures reported { result ≡ Ok (Some Goes)
            → M.reports machine.new ≤ M.reports machine.old + 1 }
        ensures shown { result ≡ Ok (Some Goes)
            → M.shows_by machine.new ≡ M.shows_by machine.old }
        ensures counted { looks self.new ≡ looks self.old + 1 }
        ensures failed { result ≡ Err ReplayError.Read → IsTrue (read_failed self.new) }
        ensures not_write { result ≢ Err ReplayError.Write };

    /// Writes all the bytes and then flushes the writer; no bytes make no call of it.
    ///
    /// # Errors
    /// `Write` where the writer failed, took no byte or didn't flush; it has then a beginning of
    /// the bytes.
    fn put(&mut self, writer: &mut W, bytes: &[u8]) -> Result<(), ReplayError>
        ensures ok { OnOk result (Appends (W.contents writer.old)
            (W.contents writer.new) bytes.now) }
        ensures err { OnErr result (AppendsFront (W.contents writer.old)
            (W.contents writer.new) bytes.now) }
        ensures counted { looks self.new ≡ looks self.old }
        ensures read { read_failed self.new ≡ read_failed self.old }
        ensures failed { OnErr result (IsTrue (write_failed self.new)) }
        ensures only_write { OnErr result (result ≡ Err ReplayError.Write) };

    /// Whether the next look may have to wait, since the last one showed no whole line after the
    /// one that it took. What is told is to be written before it then.
    fn may_wait(&self) -> bool
        ensures { result ≡ waits self.now };
}

/// Whether the reader or the writer failed, and how often the reader was looked at.
#[derive(Debug, Drop)]
pub struct Failures {
    read: bool,
    write: bool,
    looks: u64,
    /// Whether no whole line was shown behind the last one.
    waits: bool,
}

impl Failures {
    /// No failure and no look yet.
    pub fn new() -> Failures
        ensures { result ≡ no_failure }
    {
        Failures {
            read: false,
            write: false,
            looks: 0,
            waits: true,
        }
    }

    /// Whether the reader failed.
    pub fn has_read_failed(&self) -> bool
        ensures { result ≡ has_read_failed self.now }
    {
        self.read
    }

    /// Whether the writer failed.
    pub fn has_write_failed(&self) -> bool
        ensures { result ≡ has_write_failed self.now }
    {
        self.write
    }
}

impl<R: BufRead, W: Write> Ports<R, W> for Failures {
    ghost read_failed = { λ f. f.read };

    ghost write_failed = { λ f. f.write };

    ghost looks = { λ f. f.looks };

    ghost waits = { λ f. f.waits };

    fn advance<M: Machine>(
        &mut self,
        alloc: Global,
        machine: &mut M,
        number: u64,
        reader: &mut R,
        begun: &mut Vec<u8>,
        text: &mut Vec<u8>,
    ) -> Result<Option<Step>, ReplayError> {
        let most = LONGEST + 1 - begun.len();
        self.looks += 1;
        let Ok(shown) = reader.fill_buf() else {
            self.read = true;
            return Err(ReplayError::Read);
        };
        if shown.is_empty() {
            let summary = at_end(alloc, machine, number, begun, text)?;
            return Ok(Some(Step::Ends(summary)));
        }
        let len = shown.len().min(most);
        if let Some(len) = feed_in(&shown[..len]) {
            let step = whole_line(alloc, machine, number, begun, &shown[..len], text)?;
            self.waits = may_wait(self.waits, &step, text, &shown[len + 1..]);
            reader.consume(len + 1);
            return Ok(Some(step));
        }
        begun.extend_from_slice(&shown[..len])?;
        reader.consume(len);
        if begun.len() <= LONGEST {
            return Ok(None);
        }
        let summary = at_long(alloc, machine, number, begun, text)?;
        Ok(Some(Step::Ends(summary)))
    }

    fn put(&mut self, writer: &mut W, bytes: &[u8]) -> Result<(), ReplayError> {
        if bytes.is_empty() {
            return Ok(());
        }
        let mut done = 0;
        while done < bytes.len() {
            match writer.write(&bytes[done..]) {
                Ok(0) | Err(_) => {
                    self.write = true;
                    return Err(ReplayError::Write);
                }
                Ok(n) => done += n,
            }
        }
        if writer.flush().is_err() {
            self.write = true;
            return Err(ReplayError::Write);
        }
        Ok(())
    }

    fn may_wait(&self) -> bool {
        self.waits
    }
}
