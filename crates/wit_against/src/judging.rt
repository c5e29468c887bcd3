//! Lines of orders, read and judged.

ghost use Rattle.std.specs.Prelude.{◌≡◌, [], None, Some, Err, IfOk, OnOk, OnErr};
ghost use Rattle.wit_stream.specs.Stream.{ReadsToEnd, WritesFront, WritesLines, WritesOutput};
ghost use Rattle.wit_stream.specs.declared.summary.ReplayError.TheVariants as ReplayError;
ghost use Rattle.wit_against.specs.Known.{nothing_known};
ghost use Rattle.wit_against.specs.Outputs.{Judges, JudgesFrom, Refuses, Tells, ended};
ghost use Rattle.wit_against.specs.Judging.{allowed, Enters, known, RefusesAt, some_allowed};

use crate::answers::{answer_text, bad_text};
use crate::orders::Orders;
use std::alloc::{AllocError, Global};
use std::io::{BufRead, Write};
use wit_circles::judge;
use wit_fields::LineError;
use wit_model::{Boxed, Cause};
use wit_orders::{OrderLine, order_line};
use wit_stream::{Failures, Machine, Pace, ReplayError, Step, Summary, run};

/// Reads orders, a line each, and judges them in the sequence in which each came first. An order that
/// closes a circle with those that were kept before it is against them: its line is written, and
/// below it, set in, the lines of those that lead from its second type back to its first. Any other
/// order is kept. The last line says how many are against others.
///
/// A bad line ends the reading: its number and cause are written then, and nothing else.
///
/// It keeps each type and each order once, with the line in which it came first.
///
/// # Errors
/// `Read` where the reader failed, `Write` where the writer failed, took no byte or didn't flush,
/// `Memory` where a growth was refused. What was written is then a beginning of an output.
pub fn judge_orders<R: BufRead, W: Write>(
    alloc: Global,
    input: &mut R,
    output: &mut W,
) -> Result<Summary, ReplayError>
    ensures ok { IfOk result (WritesOutput Judges
        (R.remaining input.old) (W.contents output.old) (W.contents output.new)) }
    ensures err { OnErr result (WritesFront Judges
        (R.remaining input.old) (W.contents output.old) (W.contents output.new)) }
    ensures taken { IfOk result (ReadsToEnd JudgesFrom nothing_known
        (R.remaining input.old) (R.remaining input.new)
        (W.contents output.old) (W.contents output.new)) }
    ensures told { result ≡ Err ReplayError.Read → WritesLines JudgesFrom nothing_known
        (R.remaining input.old) (R.remaining input.new)
        (W.contents output.old) (W.contents output.new) }
{
    let mut machine = Judging {
        orders: Orders::new(alloc),
    };
    run(
        alloc,
        &mut Failures::new(),
        &mut machine,
        Pace::Gathered,
        input,
        output,
    )
}

/// A judging in progress.
#[derive(Drop)]
pub(crate) struct Judging {
    /// The orders that were read.
    orders: Orders,
}

impl Judging {
    // What is known after a line.
    fn enter(&mut self, alloc: Global, bytes: &[u8]) -> Result<(), LineError>
        ensures { Enters (known self.old.orders) bytes.now (known self.new.orders) result }
    {
        match order_line(bytes)? {
            OrderLine::Pair(from, to) => Ok(self.orders.enter(alloc, from, to, bytes)?),
            OrderLine::Listed(_) => Err(LineError::SYNTAX),
        }
    }
}

impl Machine for Judging {
    // There is one way to answer.
    type View = ();

    ghost shows_by = { λ m. tt };

    ghost allows = { λ by. allowed };

    ghost reports = { λ m. 0 };

    #[tactic(auto, using(crate::proofs::Following::follows, crate::proofs::Following::ends_at))]
    fn line(
        &mut self,
        alloc: Global,
        number: u64,
        bytes: &[u8],
        text: &mut Vec<u8>,
    ) -> Result<Step, AllocError> {
        match self.enter(alloc, bytes) {
            Ok(()) => Ok(Step::Goes),
            Err(LineError::Bad(cause)) => refuse(alloc, number, cause, text),
            Err(LineError::Memory) => Err(AllocError),
        }
    }

    #[tactic(auto, using(crate::proofs::Following::breaks))]
    fn broken(
        &mut self,
        alloc: Global,
        number: u64,
        beginning: &[u8],
        cause: Cause,
    ) -> Result<(Vec<u8>, Summary), AllocError> {
        refused(alloc, number, cause)
    }

    fn end(&mut self, alloc: Global, number: u64) -> Result<(Vec<u8>, Summary), AllocError> {
        self.tell(alloc)
    }

    ghost answers = { λ by m n lines tail. some_allowed m n lines tail };
}

impl Judging {
    // What is told at the end.
    fn tell(&self, alloc: Global) -> Result<(Vec<u8>, Summary), AllocError>
        ensures { IfOk result (λ r. Tells (known self.now.orders) r.0.items r.1) }
    {
        let told = judge(
            alloc,
            self.orders.types.len(),
            self.orders.orders.as_slice(),
        )?;
        let text = answer_text(alloc, &self.orders, &told)?;
        Ok((text, summary(told.len() as u64, None)))
    }
}

// The step of a bad line, which ends the reading. The last text is put into this one.
#[cold]
#[inline(never)]
fn refuse(alloc: Global, number: u64, cause: Cause, text: &mut Vec<u8>) -> Result<Step, AllocError>
    ensures { IfOk result (RefusesAt number cause text.new.items) }
{
    let (last, summary) = refused(alloc, number, cause)?;
    *text = last;
    Ok(Step::Ends(Boxed::new(alloc, summary)?))
}

// The last text and the summary of a bad line.
fn refused(alloc: Global, number: u64, cause: Cause) -> Result<(Vec<u8>, Summary), AllocError>
    ensures { IfOk result (λ r. Refuses number cause r.0.items r.1) }
{
    let text = bad_text(alloc, number, cause)?;
    Ok((text.into_bytes(), summary(0, Some((number, cause)))))
}

fn summary(reports: u64, bad: Option<(u64, Cause)>) -> Summary
    ensures { result ≡ ended reports bad }
{
    Summary {
        calls: 0,
        reports,
        circle: false,
        bad,
    }
}
