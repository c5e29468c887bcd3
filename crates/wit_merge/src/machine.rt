//! Files of orders, read line by line, and shown at their end.

ghost use Rattle.std.specs.Prelude.{◌≡◌, None, Some, Err, IfOk, OnErr};
ghost use Rattle.wit_stream.specs.Stream.{ReadsToEnd, WritesFront, WritesLines, WritesOutput};
ghost use Rattle.wit_stream.specs.declared.summary.ReplayError.TheVariants as ReplayError;
ghost use Rattle.wit_merge.specs.Lines.{nothing_merged};
ghost use Rattle.wit_merge.specs.Merging.{RefusesAt, merged};
ghost use Rattle.wit_merge.specs.Outputs.{Refuses, ShowsFrom, ShowsOrders, Tells, ended};
ghost use Rattle.wit_merge.specs.Showing.{allowed, some_allowed};

use crate::flaws::{Flaw, MergeError, flaw_of};
use crate::merging::Merging;
use crate::texts::{bad_text, merged_text, people_text, unseen_text};
use std::alloc::{AllocError, Global};
use std::io::{BufRead, Write};
use wit_model::{Boxed, Cause};
use wit_stream::{Failures, Machine, Pace, ReplayError, Step, Summary, run};

/// How the orders are shown. They are sorted by their bytes.
#[derive(Clone, Copy, Debug, PartialEq, Eq)]
pub enum Shown {
    /// Each with how many runs met it, the number of the last one that did, and its origin.
    Merged,
    /// For people: each type, and below it what may be asked for while it is held.
    Text,
    /// Those that weren't met in the last so many runs.
    Unseen(u32),
}

/// Reads files of orders and shows the orders of all. A line `file` after a tab begins a file of one
/// run, and `counted` after a tab one of several. Its orders follow, a line each; then, where it is one
/// of several, `counts` after a tab and the lines that count. Before the first such line stands a file
/// of one run.
///
/// A bad line ends the reading: its number and what is wrong with it are written then, and nothing
/// else.
///
/// It keeps each order once.
///
/// # Errors
/// `Read` where the reader failed, `Write` where the writer failed, took no byte or didn't flush,
/// `Memory` where a growth was refused. What was written is then a beginning of an output.
pub fn merge_orders<R: BufRead, W: Write>(
    alloc: Global,
    shown: Shown,
    input: &mut R,
    output: &mut W,
) -> Result<Summary, ReplayError>
    ensures ok { IfOk result (WritesOutput (ShowsOrders shown)
        (R.remaining input.old) (W.contents output.old) (W.contents output.new)) }
    ensures err { OnErr result (WritesFront (ShowsOrders shown)
        (R.remaining input.old) (W.contents output.old) (W.contents output.new)) }
    ensures taken { IfOk result (ReadsToEnd (ShowsFrom shown) nothing_merged
        (R.remaining input.old) (R.remaining input.new)
        (W.contents output.old) (W.contents output.new)) }
    ensures told { result ≡ Err ReplayError.Read → WritesLines (ShowsFrom shown) nothing_merged
        (R.remaining input.old) (R.remaining input.new)
        (W.contents output.old) (W.contents output.new) }
{
    let mut machine = Showing {
        shown,
        merging: Merging::new(alloc),
    };
    run(
        alloc,
        &mut Failures::new(),
        &mut machine,
        Pace::Gathered,
        input,
        output,
    )
}

/// A merging in progress.
#[derive(Drop)]
pub(crate) struct Showing {
    /// How it is shown.
    shown: Shown,
    /// What was read.
    merging: Merging,
}

impl Machine for Showing {
    type View = Shown;

    ghost shows_by = { λ m. m.shown };

    ghost allows = { λ by. allowed by };

    ghost reports = { λ m. 0 };

    #[tactic(auto, using(crate::proofs::Following::follows, crate::proofs::Following::ends_at))]
    fn line(
        &mut self,
        alloc: Global,
        number: u64,
        bytes: &[u8],
        text: &mut Vec<u8>,
    ) -> Result<Step, AllocError> {
        match self.merging.take(alloc, bytes) {
            Ok(()) => Ok(Step::Goes),
            Err(MergeError::Bad(flaw)) => refuse(alloc, number, flaw, text),
            Err(MergeError::Memory) => Err(AllocError),
        }
    }

    #[tactic(auto, using(crate::proofs::Following::breaks))]
    fn broken(
        &mut self,
        alloc: Global,
        number: u64,
        beginning: &[u8],
        cause: Cause,
    ) -> Result<(Vec<u8>, Summary), AllocError> {
        refused(alloc, number, flaw_of(cause))
    }

    fn end(&mut self, alloc: Global, number: u64) -> Result<(Vec<u8>, Summary), AllocError> {
        self.tell(alloc)
    }

    ghost answers = { λ by m n lines tail. some_allowed by m n lines tail };
}

impl Showing {
    // What is told at the end.
    fn tell(&mut self, alloc: Global) -> Result<(Vec<u8>, Summary), AllocError>
        ensures { IfOk result (λ r. Tells self.old.shown (merged self.old.merging) r.0.items r.1) }
    {
        self.merging.rows.sort_keys()?;
        let total = self.merging.standing.total();
        let rows = self.merging.rows.as_slice();
        match self.shown {
            Shown::Merged => Ok((merged_text(alloc, rows, total)?, summary(0, None))),
            Shown::Text => Ok((people_text(alloc, rows)?, summary(0, None))),
            Shown::Unseen(within) => {
                let (text, unseen) = unseen_text(alloc, rows, total, within)?;
                Ok((text, summary(unseen, None)))
            }
        }
    }
}

// The step of a bad line, which ends the reading. The last text is put into this one.
#[cold]
#[inline(never)]
fn refuse(alloc: Global, number: u64, flaw: Flaw, text: &mut Vec<u8>) -> Result<Step, AllocError>
    ensures { IfOk result (RefusesAt number flaw text.new.items) }
{
    let (last, summary) = refused(alloc, number, flaw)?;
    *text = last;
    Ok(Step::Ends(Boxed::new(alloc, summary)?))
}

// The last text and the summary of a bad line.
fn refused(alloc: Global, number: u64, flaw: Flaw) -> Result<(Vec<u8>, Summary), AllocError>
    ensures { IfOk result (λ r. Refuses number flaw r.0.items r.1) }
{
    let text = bad_text(alloc, number, flaw)?;
    Ok((text.into_bytes(), summary(0, Some((number, flaw.cause())))))
}

fn summary(reports: u64, bad: Option<(u64, Cause)>) -> Summary
    ensures { result ≡ ended reports bad }
{
    Summary {
        calls: 0,
        reports,
        circle: false,
        bad,
    }
}
