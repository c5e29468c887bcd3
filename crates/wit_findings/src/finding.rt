//! Findings, as the lines of a recording come.

ghost use Rattle.std.specs.Prelude.{◌≡◌, ◌++◌, Err, IfOk, OnErr, OnOk, map};
ghost use Rattle.wit_stream.specs.Stream.{ReadsToEnd, WritesFront, WritesLines, WritesOutput};
ghost use Rattle.wit_stream.specs.declared.summary.ReplayError.TheVariants as ReplayError;
ghost use Rattle.wit_findings.specs.Existing.{some_allowed};
ghost use Rattle.wit_findings.specs.Findings.{Adds, AreEnds, Ends, Finds, FindsFrom, IsEnd, StepsBy};
ghost use Rattle.wit_findings.specs.Findings.{allowed, end_line, summed, sums};
ghost use Rattle.wit_findings.specs.Runs.{bads, known, nothing_told};
ghost use Rattle.wit_findings.specs.Told.{told};

use crate::objects::{head, put_count, put_line};
use crate::processes::{Processes, place_of};
use crate::recording::Recording;
use crate::states::state_text;
use std::alloc::{AllocError, Global};
use std::io::{BufRead, Write};
use wit_model::{Boxed, Cause};
use wit_stream::{Failures, Machine, Pace, ReplayError, Step, Summary, run};

/// Reads recordings, and writes what they show, a JSON object a line: each report, each order that was
/// learnt, and each bad line with its number and cause; where a line asks for it, and after the last
/// one, what seats hold and ask for, a circle of those that wait for one another, and whether the log
/// is clean; and then what was counted. What is told of a line is written and flushed before the reader
/// is looked at again.
///
/// A line may say which process those after it are of. Each is judged by itself, and what is told of it
/// has its number; at the end they are told by their numbers.
///
/// A bad line changes nothing of what is known. One that is too long ends the reading, as does a
/// recording of another version.
///
/// # Errors
/// `Read` where the reader failed, `Write` where the writer failed, took no byte or didn't flush,
/// `Memory` where a growth was refused. What was written is then a beginning of an output; after
/// `Read` it is what is told of every whole line that was taken.
pub fn findings<R: BufRead, W: Write>(
    alloc: Global,
    input: &mut R,
    output: &mut W,
) -> Result<Summary, ReplayError>
    ensures ok { IfOk result (WritesOutput Finds
        (R.remaining input.old) (W.contents output.old) (W.contents output.new)) }
    ensures err { OnErr result (WritesFront Finds
        (R.remaining input.old) (W.contents output.old) (W.contents output.new)) }
    ensures taken { IfOk result (ReadsToEnd FindsFrom nothing_told
        (R.remaining input.old) (R.remaining input.new)
        (W.contents output.old) (W.contents output.new)) }
    ensures told { result ≡ Err ReplayError.Read → WritesLines FindsFrom nothing_told
        (R.remaining input.old) (R.remaining input.new)
        (W.contents output.old) (W.contents output.new) }
{
    let others = Vec::new(alloc);
    let mut machine = Processes::new(alloc, others)?;
    run(
        alloc,
        &mut Failures::new(),
        &mut machine,
        Pace::AtOnce,
        input,
        output,
    )
}

impl Processes {
    // The step after a line that was entered. The last text is put behind this one.
    fn step(&self, alloc: Global, goes: bool, text: &mut Vec<u8>) -> Result<Step, AllocError>
        ensures { IfOk result (λ step. StepsBy (known self.now) text.old.items goes
            text.new.items step) }
    {
        if goes {
            return Ok(Step::Goes);
        }
        let summary = self.put_ends(alloc, text)?;
        Ok(Step::Ends(Boxed::new(alloc, summary)?))
    }

    // Puts what is known at the end behind the text. What it sums up.
    fn put_ends(&self, alloc: Global, text: &mut Vec<u8>) -> Result<Summary, AllocError>
        ensures { IfOk result (λ summary. Ends (known self.now) text.old.items
            text.new.items summary) }
    {
        let place = place_of(&self.others, self.current.process);
        let (before, after) = self.others.split_at(place);
        put_each(text, alloc, before)?;
        put_end(text, alloc, &self.current)?;
        put_each(text, alloc, after)?;
        Ok(sum(before, sum_with(&self.current, sum(after, NOTHING))))
    }
}

const NOTHING: Summary = Summary {
    calls: 0,
    reports: 0,
    circle: false,
    bad: None,
};

// Puts what is known at the end of each of these behind the text.
fn put_each(text: &mut Vec<u8>, alloc: Global, all: &[Recording]) -> Result<(), AllocError>
    ensures { OnOk result (Adds (AreEnds (map told all.now)) text.old.items text.new.items) }
{
    match all {
        [] => Ok(()),
        [first, others @ ..] => {
            put_end(text, alloc, first)?;
            put_each(text, alloc, others)
        }
    }
}

fn put_end(text: &mut Vec<u8>, alloc: Global, known: &Recording) -> Result<(), AllocError>
    ensures { OnOk result (Adds (IsEnd (told known.now)) text.old.items text.new.items) }
{
    let state = state_text(alloc, known)?;
    text.extend_from_slice(&state)?;
    put_counts(text, alloc, known)
}

// Puts what was counted behind the text.
fn put_counts(text: &mut Vec<u8>, alloc: Global, known: &Recording) -> Result<(), AllocError>
    ensures { OnOk result (text.new.items ≡ text.old.items ++ end_line (told known.now)) }
{
    let mut json = head(alloc, known.process, "end")?;
    put_count(&mut json, "calls", known.verifier.history().len() as u64)?;
    put_count(&mut json, "reports", u64::from(known.verifier.reports()))?;
    put_count(&mut json, "bad", known.bads)?;
    json.end_object()?;
    put_line(text, json)
}

// What these sum up, and those after them, which sum up this.
fn sum(all: &[Recording], after: Summary) -> Summary
    ensures { result ≡ sums (map told all.now) after }
{
    match all {
        [] => after,
        [first, others @ ..] => sum_with(first, sum(others, after)),
    }
}

fn sum_with(known: &Recording, after: Summary) -> Summary
    ensures { result ≡ summed (told known.now) after }
{
    Summary {
        calls: after
            .calls
            .saturating_add(known.verifier.history().len() as u64),
        reports: after
            .reports
            .saturating_add(u64::from(known.verifier.reports())),
        circle: false,
        bad: known.bad.or(after.bad),
    }
}

impl Machine for Processes {
    // There is one way to show it.
    type View = ();

    ghost shows_by = { λ m. tt };

    ghost allows = { λ by. allowed };

    ghost reports = { λ m. bads m };

    #[tactic(auto, using(crate::proofs::Following::follows))]
    fn line(
        &mut self,
        alloc: Global,
        number: u64,
        bytes: &[u8],
        text: &mut Vec<u8>,
    ) -> Result<Step, AllocError> {
        let goes = self.enter(alloc, number, bytes, text)?;
        self.step(alloc, goes, text)
    }

    #[tactic(auto, using(crate::proofs::Following::breaks))]
    fn broken(
        &mut self,
        alloc: Global,
        number: u64,
        _beginning: &[u8],
        cause: Cause,
    ) -> Result<(Vec<u8>, Summary), AllocError> {
        let mut text = Vec::new(alloc);
        self.current.refuse(alloc, number, cause, &mut text)?;
        let summary = self.put_ends(alloc, &mut text)?;
        Ok((text, summary))
    }

    fn end(&mut self, alloc: Global, _number: u64) -> Result<(Vec<u8>, Summary), AllocError> {
        let mut text = Vec::new(alloc);
        let summary = self.put_ends(alloc, &mut text)?;
        Ok((text, summary))
    }

    ghost answers = { λ by m n lines tail. some_allowed m n lines tail };
}
