//! How a line is entered in its place.

ghost use Rattle.std.specs.Prelude.{◌≡◌, ◌<◌, ℕ, Option};
ghost use Rattle.wit_model.specs.declared.lines.Line.{Line};
ghost use Rattle.wit_model.specs.Trace.Output.{Unstarted, entered, read_as};
ghost use Rattle.wit_grammar.specs.Lines.{Begins};
ghost use Rattle.wit_lines.specs.Replays.{reports_told, GoesAsDue};
ghost use Rattle.wit_trace.specs.Replaying.{progress_of};

use crate::replaying::Progress;
use std::alloc::Global;
use wit_grammar::{Begun, LineError, finish_line};
use wit_lines::{add_line, new_prelude};
use wit_model::{Cause, Limits, Line};

impl Progress {
    /// A line of which the first word was read.
    ///
    /// # Errors
    /// `Bad` where it spells no line, or what it spells has no place there or is refused; `Memory`.
    pub fn read(
        &mut self,
        alloc: Global,
        number: u64,
        begun: Option<Begun>,
    ) -> Result<Vec<u8>, LineError>
        requires { reports_told (progress_of self.old) < number }
        ensures { (line : Option Line) → Begins begun.entry line
            → GoesAsDue (read_as (progress_of self.old) number line)
            (progress_of self.old) (progress_of self.new) result }
    {
        let line = finish_line(alloc, begun)?;
        self.enter(alloc, number, line)
    }

    fn enter(&mut self, alloc: Global, number: u64, line: Line) -> Result<Vec<u8>, LineError>
        requires { reports_told (progress_of self.old) < number }
        ensures { GoesAsDue (entered (progress_of self.old) number line)
            (progress_of self.old) (progress_of self.new) result }
    {
        match self {
            Progress::Unstarted => self.start(alloc, line),
            Progress::Opening(prelude) => add_line(alloc, prelude, number, line),
            Progress::Reading(driving) => driving.enter(alloc, line),
            Progress::Stepping(driving) => driving.enter(alloc, line),
        }
    }

    fn start(&mut self, alloc: Global, line: Line) -> Result<Vec<u8>, LineError>
        requires { progress_of self.old ≡ Unstarted }
        ensures { (number : ℕ) → GoesAsDue (entered Unstarted number line) Unstarted
            (progress_of self.new) result }
    {
        let Line::Header {
            version,
            seats,
            types,
            locks,
            chunks,
        } = line
        else {
            return Err(LineError::SYNTAX);
        };
        let Some(limits) = Limits::new(seats, types, locks, chunks, Limits::MOST_ENTRIES) else {
            return Err(LineError::Bad(Cause::Limit));
        };
        *self = Progress::Opening(new_prelude(alloc, version, limits));
        Ok(Vec::new(alloc))
    }
}
