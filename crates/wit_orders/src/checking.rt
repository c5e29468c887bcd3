//! A sequence of types and pairs of them, checked as their lines come.

ghost use Rattle.std.specs.Prelude.{◌≡◌, ◌<◌, ◌≤◌, ◌+◌, ◌-◌, ◌^◌, None, Err, IfOk, OnErr};
ghost use Rattle.wit_recordings.specs.Recordings.{NamedType};
ghost use Rattle.std.specs.Io.KnownBytes.{Keeps};
ghost use Rattle.wit_stream.specs.Stream.{ReadsToEnd, WritesFront, WritesOutput};
ghost use Rattle.wit_orders.specs.declared.answers.Answer.TheVariants.{Refused};
ghost use Rattle.wit_orders.specs.declared.reading.OrderLine.{OrderLine};
ghost use Rattle.wit_orders.specs.Answers.{answer_from, nothing_seen, pair_flaw, place_in};
ghost use Rattle.wit_orders.specs.Answers.{type_flaw, with_pair, with_type};
ghost use Rattle.wit_orders.specs.Outputs.{Answers, AnswersFrom, IsAnswered, some_answer};
ghost use Rattle.wit_orders.specs.Checking.{EndsWith, EntersAsDue, ReadsAsDue, allowed, seen};
ghost use Rattle.wit_orders.specs.Reading.{IsWritten};

use crate::answers::{Answer, Flaw};
use crate::reading::{OrderLine, order_line};
use crate::sequence::{list, place_of};
use indexmap::IndexSet;
use std::alloc::{AllocError, Global};
use std::io::{BufRead, Write};
use wit_fields::LineError;
use wit_model::{Boxed, Cause};
use wit_stream::{Failures, Machine, Pace, ReplayError, Step, Summary, run};

/// Reads a sequence of types and pairs of them, a type or a pair a line, and writes whether each
/// pair goes forward in the sequence, or the first line with a flaw. A pair stands behind the lines
/// of its types.
///
/// It keeps each type once, and no pair: so the memory it takes grows with the types alone.
///
/// # Errors
/// `Read` where the reader failed, `Write` where the writer failed, took no byte or didn't flush,
/// `Memory` where a growth was refused. What was written is then a beginning of an answer, and
/// after `Read` nothing.
pub fn check_sequence<R: BufRead, W: Write>(
    alloc: Global,
    input: &mut R,
    output: &mut W,
) -> Result<Summary, ReplayError>
    ensures ok { IfOk result (WritesOutput Answers
        (R.remaining input.old) (W.contents output.old) (W.contents output.new)) }
    ensures err { OnErr result (WritesFront Answers
        (R.remaining input.old) (W.contents output.old) (W.contents output.new)) }
    ensures taken { IfOk result (ReadsToEnd AnswersFrom nothing_seen
        (R.remaining input.old) (R.remaining input.new)
        (W.contents output.old) (W.contents output.new)) }
    ensures silent { result ≡ Err ReplayError.Read
        → Keeps (W.contents output.old) (W.contents output.new) }
{
    let mut machine = Checking {
        types: IndexSet::new(alloc),
        pairs: 0,
    };
    run(
        alloc,
        &mut Failures::new(),
        &mut machine,
        Pace::Gathered,
        input,
        output,
    )
}

/// A check in progress.
#[derive(Drop)]
pub(crate) struct Checking {
    /// The types that were listed, as they are written.
    types: IndexSet<Vec<u8>>,
    /// How many pairs were read.
    pairs: u64,
}

impl Checking {
    // What is wrong with a line; where nothing is, it is entered.
    fn read(&mut self, alloc: Global, bytes: &[u8]) -> Result<Option<Flaw>, AllocError>
        requires { self.old.pairs < 2 ^ 64 - 1 }
        ensures due { IfOk result (ReadsAsDue (seen self.old) bytes.now (seen self.new)) }
        ensures counted { self.new.pairs ≤ self.old.pairs + 1 }
    {
        match order_line(bytes) {
            Ok(line) => self.enter(alloc, line),
            Err(LineError::Bad(_)) => Ok(Some(Flaw::Syntax)),
            Err(LineError::Memory) => Err(AllocError),
        }
    }

    fn enter(&mut self, alloc: Global, line: OrderLine<&[u8]>) -> Result<Option<Flaw>, AllocError>
        requires { self.old.pairs < 2 ^ 64 - 1 }
        ensures due { (said : OrderLine NamedType) → IsWritten line.entry said
            → IfOk result (EntersAsDue (seen self.old) said (seen self.new)) }
        ensures counted { self.new.pairs ≤ self.old.pairs + 1 }
    {
        match line {
            OrderLine::Listed(text) => self.enter_type(alloc, text),
            OrderLine::Pair(first, second) => Ok(self.enter_pair(first, second)),
        }
    }

    fn enter_type(&mut self, alloc: Global, text: &[u8]) -> Result<Option<Flaw>, AllocError>
        ensures flaw { IfOk result (λ flaw.
            flaw ≡ type_flaw (place_in (seen self.old).types text.now)) }
        ensures entered { IfOk result (λ flaw. flaw ≡ None
            → seen self.new ≡ with_type (seen self.old) text.now) }
        ensures counted { self.new.pairs ≡ self.old.pairs }
    {
        if place_of(&self.types, text).is_some() {
            return Ok(Some(Flaw::Twice));
        }
        list(alloc, &mut self.types, text)?;
        Ok(None)
    }

    fn enter_pair(&mut self, first: &[u8], second: &[u8]) -> Option<Flaw>
        requires { self.old.pairs < 2 ^ 64 - 1 }
        ensures flaw { result ≡ pair_flaw (place_in (seen self.old).types first.now)
            (place_in (seen self.old).types second.now) }
        ensures entered { result ≡ None → seen self.new ≡ with_pair (seen self.old) }
        ensures counted { self.new.pairs ≤ self.old.pairs + 1 }
    {
        let flaw = pair_flaw(place_of(&self.types, first), place_of(&self.types, second));
        if flaw.is_none() {
            self.pairs += 1;
        }
        flaw
    }
}

// What is wrong with a pair whose types have these places in the sequence.
fn pair_flaw(first: Option<usize>, second: Option<usize>) -> Option<Flaw>
    ensures { result ≡ pair_flaw first second }
{
    match (first, second) {
        (Some(first), Some(second)) if first < second => None,
        (Some(_), Some(_)) => Some(Flaw::Backward),
        _ => Some(Flaw::Unknown),
    }
}

impl Machine for Checking {
    // There is one way to answer.
    type View = ();

    ghost shows_by = { λ m. tt };

    ghost allows = { λ by. allowed };

    ghost reports = { λ m. m.pairs };

    fn line(
        &mut self,
        alloc: Global,
        number: u64,
        bytes: &[u8],
        text: &mut Vec<u8>,
    ) -> Result<Step, AllocError> {
        match self.read(alloc, bytes)? {
            None => Ok(Step::Goes),
            Some(flaw) => refuse(alloc, number, flaw, text),
        }
    }

    fn broken(
        &mut self,
        alloc: Global,
        number: u64,
        beginning: &[u8],
        cause: Cause,
    ) -> Result<(Vec<u8>, Summary), AllocError> {
        let flaw = match cause {
            Cause::Long => Flaw::Long,
            _ => Flaw::Cut,
        };
        last_text(alloc, Answer::Refused { line: number, flaw })
    }

    fn end(&mut self, alloc: Global, number: u64) -> Result<(Vec<u8>, Summary), AllocError> {
        let types = self.types.len() as u64;
        let pairs = self.pairs;
        last_text(alloc, Answer::Acyclic { types, pairs })
    }

    ghost answers = { λ by m n lines tail. some_answer (answer_from (seen m) n lines tail) };
}

// The step of a line with a flaw, which ends there. The last text is put into this one.
#[cold]
#[inline(never)]
fn refuse(alloc: Global, number: u64, flaw: Flaw, text: &mut Vec<u8>) -> Result<Step, AllocError>
    ensures { IfOk result (EndsWith (Refused number flaw) text.new.items) }
{
    let (last, summary) = last_text(alloc, Answer::Refused { line: number, flaw })?;
    *text = last;
    Ok(Step::Ends(Boxed::new(alloc, summary)?))
}

// The last text and the summary.
fn last_text(alloc: Global, answer: Answer) -> Result<(Vec<u8>, Summary), AllocError>
    ensures { IfOk result (λ r. IsAnswered answer r.0.items r.1) }
{
    let text = answer.text(alloc)?;
    Ok((text.into_bytes(), answer.summary()))
}
