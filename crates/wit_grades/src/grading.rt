//! Facts, graded as their lines come.

ghost use Rattle.std.specs.Prelude.{◌≡◌, [], None, Some, Err, IfOk, OnOk, OnErr};
ghost use Rattle.wit_stream.specs.Stream.{ReadsToEnd, WritesFront, WritesLines, WritesOutput};
ghost use Rattle.wit_stream.specs.declared.summary.ReplayError.TheVariants as ReplayError;
ghost use Rattle.wit_grades.specs.declared.reading.GradeLine.TheVariants as said;
ghost use Rattle.wit_grades.specs.Reading.{shown_line};
ghost use Rattle.wit_grades.specs.Outputs.{ended, Grades, GradesFrom, nothing_told, Refuses};
ghost use Rattle.wit_grades.specs.Grading.{allowed, Enters, RefusesAt, some_allowed, told};

use crate::answers::{bad_text, grade_text};
use crate::reading::{GradeLine, grade_line};
use std::alloc::{AllocError, Global};
use std::io::{BufRead, Write};
use wit_alarms::{Fact, Lives, grade_of};
use wit_fields::LineError;
use wit_model::{Boxed, Cause};
use wit_stream::{Failures, Machine, Pace, ReplayError, Step, Summary, run};

/// Reads facts, and when threads were made and joined, a line each. Where a line asks for it, a line
/// is written with the grade of the facts since the last grade: the facts are forgotten then, and
/// what is known of the threads is kept. It is written and flushed before the reader is looked at
/// again.
///
/// A bad line ends the reading: its number and cause are written then.
///
/// # Errors
/// `Read` where the reader failed, `Write` where the writer failed, took no byte or didn't flush,
/// `Memory` where a growth was refused. What was written is then a beginning of an output; after
/// `Read` it is the grade for each line that asked for one.
pub fn grade_facts<R: BufRead, W: Write>(
    alloc: Global,
    input: &mut R,
    output: &mut W,
) -> Result<Summary, ReplayError>
    ensures ok { IfOk result (WritesOutput Grades
        (R.remaining input.old) (W.contents output.old) (W.contents output.new)) }
    ensures err { OnErr result (WritesFront Grades
        (R.remaining input.old) (W.contents output.old) (W.contents output.new)) }
    ensures taken { IfOk result (ReadsToEnd GradesFrom nothing_told
        (R.remaining input.old) (R.remaining input.new)
        (W.contents output.old) (W.contents output.new)) }
    ensures told { result ≡ Err ReplayError.Read → WritesLines GradesFrom nothing_told
        (R.remaining input.old) (R.remaining input.new)
        (W.contents output.old) (W.contents output.new) }
{
    let mut machine = Grading {
        lives: Lives {
            made: Vec::new(alloc),
            joined: Vec::new(alloc),
        },
        facts: Vec::new(alloc),
        are_all: true,
    };
    run(
        alloc,
        &mut Failures::new(),
        &mut machine,
        Pace::AtOnce,
        input,
        output,
    )
}

/// Grades in progress.
#[derive(Drop)]
pub(crate) struct Grading {
    /// When threads were made and joined.
    lives: Lives,
    /// The facts since the last grade.
    facts: Vec<Fact>,
    /// Whether these are all that there are.
    are_all: bool,
}

impl Grading {
    // What is known after a line, and the text of the grade that it asks for.
    fn enter(
        &mut self,
        alloc: Global,
        line: GradeLine<Fact>,
        text: &mut Vec<u8>,
    ) -> Result<(), AllocError>
        requires { text.old.items ≡ [] }
        ensures { OnOk result
            (Enters (told self.old) (shown_line line) (told self.new) text.new.items) }
    {
        match line {
            GradeLine::Fact(fact) => self.facts.push(fact)?,
            GradeLine::Life(life) => self.lives.made.push(life)?,
            GradeLine::Joined(join) => self.lives.joined.push(join)?,
            GradeLine::Missing => self.are_all = false,
            GradeLine::Grade => self.tell(alloc, text)?,
        }
        Ok(())
    }

    // The grade of the facts, which are forgotten.
    fn tell(&mut self, alloc: Global, text: &mut Vec<u8>) -> Result<(), AllocError>
        requires { text.old.items ≡ [] }
        ensures { OnOk result (Enters (told self.old) said.Grade (told self.new) text.new.items) }
    {
        let grade = grade_of(alloc, &self.facts, &self.lives, self.are_all)?;
        *text = grade_text(alloc, &grade)?.into_bytes();
        self.facts.clear();
        self.are_all = true;
        Ok(())
    }
}

impl Machine for Grading {
    // There is one way to answer.
    type View = ();

    ghost shows_by = { λ m. tt };

    ghost allows = { λ by. allowed };

    ghost reports = { λ m. 0 };

    #[tactic(auto, using(crate::proofs::Following::follows, crate::proofs::Following::ends_at))]
    fn line(
        &mut self,
        alloc: Global,
        number: u64,
        bytes: &[u8],
        text: &mut Vec<u8>,
    ) -> Result<Step, AllocError> {
        match grade_line(alloc, bytes) {
            Ok(line) => {
                self.enter(alloc, line, text)?;
                Ok(Step::Goes)
            }
            Err(LineError::Bad(cause)) => refuse(alloc, number, cause, text),
            Err(LineError::Memory) => Err(AllocError),
        }
    }

    #[tactic(auto, using(crate::proofs::Following::breaks))]
    fn broken(
        &mut self,
        alloc: Global,
        number: u64,
        beginning: &[u8],
        cause: Cause,
    ) -> Result<(Vec<u8>, Summary), AllocError> {
        refused(alloc, number, cause)
    }

    fn end(&mut self, alloc: Global, number: u64) -> Result<(Vec<u8>, Summary), AllocError> {
        Ok((Vec::new(alloc), summary(None)))
    }

    ghost answers = { λ by m n lines tail. some_allowed m n lines tail };
}

// The step of a bad line, which ends the reading. The last text is put into this one.
#[cold]
#[inline(never)]
fn refuse(alloc: Global, number: u64, cause: Cause, text: &mut Vec<u8>) -> Result<Step, AllocError>
    ensures { IfOk result (RefusesAt number cause text.new.items) }
{
    let (last, summary) = refused(alloc, number, cause)?;
    *text = last;
    Ok(Step::Ends(Boxed::new(alloc, summary)?))
}

// The last text and the summary of a bad line.
fn refused(alloc: Global, number: u64, cause: Cause) -> Result<(Vec<u8>, Summary), AllocError>
    ensures { IfOk result (λ r. Refuses number cause r.0.items r.1) }
{
    let text = bad_text(alloc, number, cause)?;
    Ok((text.into_bytes(), summary(Some((number, cause)))))
}

// Grades are no reports.
fn summary(bad: Option<(u64, Cause)>) -> Summary
    ensures { result ≡ ended bad }
{
    Summary {
        calls: 0,
        reports: 0,
        circle: false,
        bad,
    }
}
