//! An import, as its lines come.

ghost use Rattle.std.specs.Prelude.{◌≡◌, ◌++◌, [], None, Err, IfOk, OnOk, OnErr};
ghost use Rattle.wit_stream.specs.Stream.{ReadsToEnd, WritesFront, WritesLines, WritesOutput};
ghost use Rattle.wit_stream.specs.declared.summary.ReplayError.TheVariants as ReplayError;
ghost use Rattle.wit_import.specs.Blocks.{request_text, twice_text};
ghost use Rattle.wit_import.specs.Held.{place_released};
ghost use Rattle.wit_import.specs.Importing.{allowed, Enters, RefusesAt, seen};
ghost use Rattle.wit_import.specs.Outputs.{after_asking, after_release, after_twice, ended, header};
ghost use Rattle.wit_import.specs.Outputs.{Imports, ImportsFrom, IsOutput, release_text};
ghost use Rattle.wit_import.specs.Outputs.{nothing_seen, opening, output_from, refused};
ghost use Rattle.wit_import.specs.Outputs.{seen_after, some_output, text_of_event};

use crate::blocks::{has_place, number_types, put_request, put_twice};
use crate::events::{Acquisition, Event, LockType, Release};
use crate::held::{Holding, hold, note_freed, place_released};
use crate::names::{Names, has_name};
use crate::pairs::{Fate, add_pairs, fate_of};
use crate::reading::plain_line;
use indexmap::IndexSet;
use std::alloc::{AllocError, Global};
use std::io::{BufRead, Write};
use wit_fields::LineError;
use wit_model::{Boxed, Cause, Class, Name};
use wit_stream::{Failures, Machine, Pace, ReplayError, Step, Summary, bad_text, run};

/// Reads lines in which a script tells how threads acquire and release locks, and writes a trace:
/// each request of which a pair of types is new, the held one and the one that is asked for, with
/// what its thread holds.
///
/// A bad line ends the reading: its number and cause are written then. What is counted meanwhile is for
/// who wants to tell it: it is no part of the trace.
///
/// # Errors
/// `Read` where the reader failed, `Write` where the writer failed, took no byte or didn't flush,
/// `Memory` where a growth was refused. What was written is then a beginning of the output; after
/// `Read` it is the text of every whole line that was taken.
pub fn import<R: BufRead, W: Write>(
    alloc: Global,
    input: &mut R,
    output: &mut W,
    counts: &mut Counts,
) -> Result<Summary, ReplayError>
    ensures ok { IfOk result (WritesOutput Imports
        (R.remaining input.old) (W.contents output.old) (W.contents output.new)) }
    ensures err { OnErr result (WritesFront Imports
        (R.remaining input.old) (W.contents output.old) (W.contents output.new)) }
    ensures taken { IfOk result (ReadsToEnd ImportsFrom nothing_seen
        (R.remaining input.old) (R.remaining input.new)
        (W.contents output.old) (W.contents output.new)) }
    ensures told { result ≡ Err ReplayError.Read → WritesLines ImportsFrom nothing_seen
        (R.remaining input.old) (R.remaining input.new)
        (W.contents output.old) (W.contents output.new) }
{
    let mut machine = Importing::new(alloc);
    let ended = run(
        alloc,
        &mut Failures::new(),
        &mut machine,
        Pace::Gathered,
        input,
        output,
    );
    *counts = machine.counts;
    ended
}

/// What an import counts.
#[derive(Clone, Copy, Debug, PartialEq, Eq, Default)]
pub struct Counts {
    /// Requests, and releases of what nobody holds, that weren't written for want of room for their types.
    pub left_out: u64,
    /// Releases of what nobody holds.
    pub unheld: u64,
    /// Lines that tell nothing.
    pub passed: u64,
    /// Lines that tell that events are missing.
    pub lost: u64,
}

/// An import in progress.
#[derive(Drop)]
pub(crate) struct Importing {
    /// Whether the header was written.
    begun: bool,
    /// What was counted.
    pub(crate) counts: Counts,
    /// What threads hold, oldest first.
    held: Vec<Holding>,
    /// The locks that were released.
    freed: Names,
    /// The names of the types that have numbers.
    types: Names,
    /// The pairs of types that were written.
    pairs: Names,
}

impl Importing {
    /// One that saw nothing.
    pub(crate) fn new(alloc: Global) -> Importing
        ensures { seen result ≡ nothing_seen }
    {
        Importing {
            begun: false,
            counts: Counts::default(),
            held: Vec::new(alloc),
            freed: IndexSet::new(alloc),
            types: IndexSet::new(alloc),
            pairs: IndexSet::new(alloc),
        }
    }

    // Enters what a line tells, and puts what is written of it into the text.
    fn enter(
        &mut self,
        alloc: Global,
        event: Option<Event>,
        text: &mut Vec<u8>,
    ) -> Result<(), AllocError>
        requires { text.old.items ≡ [] }
        ensures { OnOk result (Enters (seen self.old) event (seen self.new) text.new.items) }
    {
        put_opening(self.begun, text)?;
        match event {
            Some(event) => self.follow(alloc, event, text)?,
            None => self.counts.passed = self.counts.passed.saturating_add(1),
        }
        self.begun = true;
        Ok(())
    }

    /// Follows an event, and puts what is written of it behind the text.
    ///
    /// # Errors
    /// Want of memory alone.
    pub(crate) fn follow(
        &mut self,
        alloc: Global,
        event: Event,
        text: &mut Vec<u8>,
    ) -> Result<(), AllocError>
        ensures seen { OnOk result (seen self.new ≡ seen_after (seen self.old) event) }
        ensures text { OnOk result (text.new.items
            ≡ text.old.items ++ text_of_event (seen self.old) event) }
    {
        match event {
            Event::Asks(asked) => self.ask(alloc, &asked, text)?,
            Event::Gets(acquisition) => {
                self.ask(alloc, &acquisition, text)?;
                let tried = false;
                hold(&mut self.held, Holding { acquisition, tried })?;
            }
            Event::Tries(acquisition) => {
                let tried = true;
                hold(&mut self.held, Holding { acquisition, tried })?;
            }
            Event::Releases(released) => self.release(alloc, &released, text)?,
            Event::Twice(of) => self.tell_twice(alloc, &of, text)?,
            Event::Loses => {
                self.counts.lost = self.counts.lost.saturating_add(1);
                self.held.clear();
                self.freed.clear();
            }
        }
        Ok(())
    }

    fn ask(
        &mut self,
        alloc: Global,
        asked: &Acquisition,
        text: &mut Vec<u8>,
    ) -> Result<(), AllocError>
        ensures seen { OnOk result (seen self.new ≡ after_asking (seen self.old) asked.now) }
        ensures text { OnOk result (text.new.items ≡ text.old.items
            ++ request_text (seen self.old).told (seen self.old).held asked.now) }
    {
        match fate_of(alloc, &self.types, &self.pairs, &self.held, asked)? {
            Fate::Known => Ok(()),
            Fate::LeftOut => {
                self.counts.left_out = self.counts.left_out.saturating_add(1);
                Ok(())
            }
            Fate::Written => {
                number_types(alloc, &mut self.types, &self.held, asked, text)?;
                put_request(&self.types, &self.held, asked, text)?;
                add_pairs(alloc, &mut self.pairs, &self.held, asked)
            }
        }
    }

    fn release(
        &mut self,
        alloc: Global,
        released: &Release,
        text: &mut Vec<u8>,
    ) -> Result<(), AllocError>
        ensures seen { OnOk result (seen self.new ≡ after_release (seen self.old) released.now
            (place_released (seen self.old).held released.now)) }
        ensures text { OnOk result (text.new.items ≡ text.old.items
            ++ release_text (seen self.old) released.now
            (place_released (seen self.old).held released.now)) }
    {
        match place_released(&self.held, released) {
            Some(place) => {
                self.held.remove(place);
                note_freed(alloc, &mut self.freed, &released.lock)
            }
            None => self.release_unheld(alloc, released, text),
        }
    }

    // Nobody holds the lock.
    fn release_unheld(
        &mut self,
        alloc: Global,
        released: &Release,
        text: &mut Vec<u8>,
    ) -> Result<(), AllocError>
        ensures seen { OnOk result
            (seen self.new ≡ after_release (seen self.old) released.now None) }
        ensures text { OnOk result (text.new.items ≡ text.old.items
            ++ release_text (seen self.old) released.now None) }
    {
        self.counts.unheld = self.counts.unheld.saturating_add(1);
        if !has_name(&self.freed, released.lock.as_bytes()) {
            return Ok(());
        }
        match &released.name {
            Some(name) => self.put_twice(alloc, Class::Sx, name, text),
            None => Ok(()),
        }
    }

    fn tell_twice(
        &mut self,
        alloc: Global,
        of: &LockType,
        text: &mut Vec<u8>,
    ) -> Result<(), AllocError>
        ensures seen { OnOk result (seen self.new ≡ after_twice (seen self.old) of.now.name) }
        ensures text { OnOk result (text.new.items ≡ text.old.items
            ++ twice_text (seen self.old).told of.now.class of.now.name) }
    {
        self.put_twice(alloc, of.class, &of.name, text)
    }

    fn put_twice(
        &mut self,
        alloc: Global,
        class: Class,
        name: &Name,
        text: &mut Vec<u8>,
    ) -> Result<(), AllocError>
        ensures seen { OnOk result (seen self.new ≡ after_twice (seen self.old) name.now) }
        ensures text { OnOk result (text.new.items ≡ text.old.items
            ++ twice_text (seen self.old).told class name.now) }
    {
        if !has_place(&self.types, name) {
            self.counts.left_out = self.counts.left_out.saturating_add(1);
            return Ok(());
        }
        put_twice(alloc, &mut self.types, class, name, text)
    }
}

impl Machine for Importing {
    // There is one way to write.
    type View = ();

    ghost shows_by = { λ m. tt };

    ghost allows = { λ by. allowed };

    ghost reports = { λ m. 0 };

    fn line(
        &mut self,
        alloc: Global,
        number: u64,
        bytes: &[u8],
        text: &mut Vec<u8>,
    ) -> Result<Step, AllocError> {
        match plain_line(alloc, bytes) {
            Ok(event) => {
                self.enter(alloc, event, text)?;
                Ok(Step::Goes)
            }
            Err(LineError::Bad(_)) => refuse(alloc, self.begun, number, Cause::Syntax, text),
            Err(LineError::Memory) => Err(AllocError),
        }
    }

    fn broken(
        &mut self,
        alloc: Global,
        number: u64,
        beginning: &[u8],
        cause: Cause,
    ) -> Result<(Vec<u8>, Summary), AllocError> {
        last_text(alloc, self.begun, number, cause)
    }

    fn end(&mut self, alloc: Global, number: u64) -> Result<(Vec<u8>, Summary), AllocError> {
        let mut text = Vec::new(alloc);
        put_opening(self.begun, &mut text)?;
        Ok((text, summary(None)))
    }

    ghost answers = { λ by m n lines tail. some_output (output_from (seen m) n lines tail) };
}

// The lines that a trace begins with, where they weren't written yet.
fn put_opening(begun: bool, text: &mut Vec<u8>) -> Result<(), AllocError>
    ensures { OnOk result (text.new.items ≡ text.old.items ++ opening begun) }
{
    if begun {
        return Ok(());
    }
    put_header(text)
}

pub(crate) fn put_header(text: &mut Vec<u8>) -> Result<(), AllocError>
    ensures { OnOk result (text.new.items ≡ text.old.items ++ header) }
{
    text.extend_from_slice(
        b"witness-trace 1 seats 1 types 1023 locks 2048 chunks 1024\nprofile all\n",
    )
}

// The step of a bad line, which ends the reading. The last text is put into this one.
#[cold]
#[inline(never)]
fn refuse(
    alloc: Global,
    begun: bool,
    number: u64,
    cause: Cause,
    text: &mut Vec<u8>,
) -> Result<Step, AllocError>
    ensures { IfOk result (RefusesAt begun number cause text.new.items) }
{
    let (last, summary) = last_text(alloc, begun, number, cause)?;
    *text = last;
    Ok(Step::Ends(Boxed::new(alloc, summary)?))
}

// The last text and the summary of a bad line.
fn last_text(
    alloc: Global,
    begun: bool,
    number: u64,
    cause: Cause,
) -> Result<(Vec<u8>, Summary), AllocError>
    ensures { IfOk result (λ r. IsOutput (refused begun number cause) r.0.items r.1) }
{
    let mut text = Vec::new(alloc);
    put_opening(begun, &mut text)?;
    let last = bad_text(alloc, number, cause)?;
    text.extend_from_slice(last.as_bytes())?;
    Ok((text, summary(Some((number, cause)))))
}

// Nothing is called or reported here.
fn summary(bad: Option<(u64, Cause)>) -> Summary
    ensures { result ≡ ended bad }
{
    Summary {
        calls: 0,
        reports: 0,
        circle: false,
        bad,
    }
}
