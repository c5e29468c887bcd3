//! The migration of a trace from the first version of the format to the second.

ghost use Rattle.std.specs.Prelude.{◌≡◌, ◌⊎◌, ◌-◌, ◌<◌, ◌≤◌, ◌^◌, length, max};
ghost use Rattle.std.specs.Prelude.{Err, None, Some, IsTrue, IfOk, OnErr};
ghost use Rattle.wit_grammar.specs.declared.parse.TheConstants.{LONGEST};
ghost use Rattle.wit_model.specs.Trace.Reading.{line_of};
ghost use Rattle.wit_model.specs.Trace.Moving.{moving_from, moving_outcome, moving_entered};
ghost use Rattle.wit_model.specs.Trace.Moving as moving;
ghost use Rattle.wit_migrate.specs.Again.{WritesTheSame};
ghost use Rattle.wit_migrate.specs.Migrates.{MayMove, HasMoved, MovesAsDue, Migrates};
ghost use Rattle.wit_migrate.specs.Migrates.{MigratesFrom};
ghost use Rattle.wit_migrate.specs.Migrates.{ReachesLine, migrated, moved_to, moving_reports};
ghost use Rattle.wit_migrate.specs.Migrates.{some_migration, weighed};
ghost use Rattle.wit_stream.specs.Stream.{IsSpent, ReadsToEnd, WritesFront, WritesLines};
ghost use Rattle.wit_stream.specs.Stream.{WritesOutput};

use crate::behind::Behind;
use crate::headers::start;
use crate::preludes::{self, Reached};
use crate::texts::join;
use std::alloc::{AllocError, Global};
use std::io::{BufRead, Write};
use wit_grammar::{LineError, parse_line};
use wit_lines::{Prelude, read_line};
use wit_model::{Cause, Line};
use wit_stream::{Failures, Machine, Pace, Ports, ReplayError, Step, Summary, run};

/// Reads a trace of the first version, and writes it as one of the second: its own lines, and
/// between them the steps of the locks themselves that its calls need. A lock is taken before it is
/// noted, unless its seat holds it by the record, and before a try; turned exclusive before an
/// upgrade; freed behind an unlock, unless more was recorded than the seat has shares; and turned
/// shared behind a downgrade where the seat has it exclusively.
///
/// At a bad line the writing ends: all lines before it are written, then its number and cause. A
/// line is bad too where its step can't be done, as two seats can't have a mutex at once; its own
/// fault comes first. Nothing of the prelude is written before all of it is known to be good, but
/// what stands before a list that is refused. Lines are written together while the reader shows a
/// whole one more, and flushed before it may have to wait for one.
///
/// # Errors
/// `Read` where the reader failed: what was written is then the text of every whole line that was
/// taken. `Write` where the writer failed, took no byte or didn't flush, `Memory` where a growth
/// was refused: what was written is then a beginning of an output.
pub fn migrate<R: BufRead, W: Write>(
    alloc: Global,
    input: &mut R,
    output: &mut W,
) -> Result<Summary, ReplayError>
    ensures ok { IfOk result (WritesOutput Migrates
        (R.remaining input.old) (W.contents output.old) (W.contents output.new)) }
    ensures err { OnErr result (WritesFront Migrates
        (R.remaining input.old) (W.contents output.old) (W.contents output.new)) }
    ensures taken { IfOk result (ReadsToEnd MigratesFrom moving.Unmoved
        (R.remaining input.old) (R.remaining input.new)
        (W.contents output.old) (W.contents output.new)) }
    ensures told { result ≡ Err ReplayError.Read → WritesLines MigratesFrom moving.Unmoved
        (R.remaining input.old) (R.remaining input.new)
        (W.contents output.old) (W.contents output.new) }
    ensures same { IfOk result (λ s. s.bad ≡ None → WritesTheSame
        (R.remaining input.old) (W.contents output.old) (W.contents output.new)) }
{
    migrate_through(alloc, &mut Failures::new(), input, output)
}

/// A migration as `migrate` makes it, through unused ports that keep the evidence of failures.
///
/// # Errors
/// As those of `migrate`. `Read` comes only where the ports have seen the reader fail, or where the
/// looks and the lines are spent; `Write` only where they have seen the writer fail.
pub fn migrate_through<R: BufRead, W: Write, P: Ports<R, W>>(
    alloc: Global,
    ports: &mut P,
    input: &mut R,
    output: &mut W,
) -> Result<Summary, ReplayError>
    requires { P.looks ports.old ≡ 0 }
    ensures ok { IfOk result (WritesOutput Migrates
        (R.remaining input.old) (W.contents output.old) (W.contents output.new)) }
    ensures err { OnErr result (WritesFront Migrates
        (R.remaining input.old) (W.contents output.old) (W.contents output.new)) }
    ensures taken { IfOk result (ReadsToEnd MigratesFrom moving.Unmoved
        (R.remaining input.old) (R.remaining input.new)
        (W.contents output.old) (W.contents output.new)) }
    ensures told { result ≡ Err ReplayError.Read → WritesLines MigratesFrom moving.Unmoved
        (R.remaining input.old) (R.remaining input.new)
        (W.contents output.old) (W.contents output.new) }
    ensures same { IfOk result (λ s. s.bad ≡ None → WritesTheSame
        (R.remaining input.old) (W.contents output.old) (W.contents output.new)) }
    ensures read { result ≡ Err ReplayError.Read → IsTrue (P.read_failed ports.new)
        ⊎ IsSpent (R.remaining input.old) (R.remaining input.new) (P.looks ports.new) }
    ensures write { result ≡ Err ReplayError.Write → IsTrue (P.write_failed ports.new) }
{
    let mut machine = Migrating::Unmoved;
    run(alloc, ports, &mut machine, Pace::Gathered, input, output)
}

/// A migration in progress.
#[derive(Drop)]
pub enum Migrating {
    /// The header wasn't read.
    Unmoved,
    /// The prelude goes on; its lines wait until it is known to be good.
    Keeping {
        prelude: Prelude,
        kept: Vec<Vec<u8>>,
    },
    /// The prelude is over.
    Moved(Behind),
}

impl Migrating {
    // The prelude ends before a line that is none of it: what was kept is written then.
    #[inline(always)]
    fn reach(&mut self, alloc: Global, number: u64, line: &[u8]) -> Result<Reached, AllocError>
        ensures stands { IfOk result (λ r. ReachesLine (moved_to self.old) number line.now
            (moved_to self.new) r.text.items r.refused) }
        ensures counted { IfOk result (λ r.
            moving_reports (moved_to self.new) ≤ moving_reports (moved_to self.old)) }
        ensures weighed { IfOk result (λ r.
            weighed (moved_to self.new) ≤ weighed (moved_to self.old)) }
    {
        match self {
            Migrating::Keeping { .. } => preludes::reach(alloc, self, number, line),
            Migrating::Unmoved | Migrating::Moved(_) => Ok(Reached::on(alloc)),
        }
    }

    // A line in its place.
    fn read(&mut self, alloc: Global, number: u64, bytes: &[u8]) -> Result<Vec<u8>, LineError>
        requires room { moving_reports (moved_to self.old) < 2 ^ 64 - 1 }
        requires few { weighed (moved_to self.old) < 2 ^ 64 - 1 }
        requires short { length bytes.now ≤ LONGEST }
        ensures { MovesAsDue (moving_outcome (moved_to self.old) number bytes.now)
            (moved_to self.old) (moved_to self.new) result }
    {
        let line = parse_line(alloc, bytes)?;
        self.enter(alloc, number, line, bytes)
    }

    fn enter(
        &mut self,
        alloc: Global,
        number: u64,
        line: Line,
        bytes: &[u8],
    ) -> Result<Vec<u8>, LineError>
        requires room { moving_reports (moved_to self.old) < 2 ^ 64 - 1 }
        requires few { weighed (moved_to self.old) < 2 ^ 64 - 1 }
        requires found { line_of bytes.now ≡ Some line }
        ensures { MovesAsDue (moving_entered (moved_to self.old) number bytes.now line)
            (moved_to self.old) (moved_to self.new) result }
    {
        match self {
            Migrating::Unmoved => start(alloc, self, line),
            Migrating::Keeping { prelude, kept } => {
                preludes::keep(alloc, prelude, kept, number, line, bytes)
            }
            Migrating::Moved(behind) => behind.enter(alloc, line, bytes),
        }
    }
}

impl Migrating {
    // A line before the prelude is over, or that ends it. By itself, so that no other pays for it.
    #[inline(never)]
    fn opening_line(
        &mut self,
        alloc: Global,
        number: u64,
        bytes: &[u8],
        text: &mut Vec<u8>,
    ) -> Result<Step, AllocError>
        requires { MayMove self.old number bytes.now text.old.items }
        ensures { IfOk result (HasMoved self.old number bytes.now self.new text.new.items) }
    {
        let reached = self.reach(alloc, number, bytes)?;
        let found = self.found();
        if let Some((number, cause)) = reached.refused {
            return self.ended_step(alloc, reached.text, found, number, cause, text);
        }
        match self.read(alloc, number, bytes) {
            Ok(more) => {
                *text = join(reached.text, &more)?;
                Ok(Step::Goes)
            }
            Err(LineError::Bad(cause)) => self.ended_step(
                alloc,
                reached.text,
                found,
                number,
                cause,
                text,
            ),
            Err(LineError::Memory) => Err(AllocError),
        }
    }
}

impl Machine for Migrating {
    // There is one way to write lines.
    type View = ();

    ghost shows_by = { λ m. tt };

    ghost allows = { λ by. migrated };

    ghost reports = { λ m. max (moving_reports (moved_to m)) (weighed (moved_to m)) };

    fn line(
        &mut self,
        alloc: Global,
        number: u64,
        bytes: &[u8],
        text: &mut Vec<u8>,
    ) -> Result<Step, AllocError> {
        match self {
            Migrating::Moved(behind) => read_line(behind, alloc, (), number, bytes, text),
            Migrating::Unmoved | Migrating::Keeping { .. } => {
                self.opening_line(alloc, number, bytes, text)
            }
        }
    }

    fn broken(
        &mut self,
        alloc: Global,
        number: u64,
        beginning: &[u8],
        cause: Cause,
    ) -> Result<(Vec<u8>, Summary), AllocError> {
        let reached = self.reach(alloc, number, beginning)?;
        let found = self.found();
        let (number, cause) = reached.refused.unwrap_or((number, cause));
        self.ended(alloc, reached.text, found, number, cause)
    }

    fn end(&mut self, alloc: Global, number: u64) -> Result<(Vec<u8>, Summary), AllocError> {
        let reached = self.reach(alloc, number, b"")?;
        let found = self.found();
        if let Some((number, cause)) = reached.refused {
            return self.ended(alloc, reached.text, found, number, cause);
        }
        match self {
            Migrating::Moved(_) => Ok((reached.text, found)),
            Migrating::Unmoved | Migrating::Keeping { .. } => {
                self.ended(alloc, reached.text, found, number, Cause::Cut)
            }
        }
    }

    ghost answers = { λ by m n lines tail.
        some_migration (moving_from (moved_to m) n lines tail) };
}
