//! What a migration knows behind the prelude.

ghost use Rattle.std.specs.Prelude.{◌≡◌, ℕ, ◌+◌, ◌-◌, ◌<◌, ◌≤◌, ◌^◌, ◌++◌, ◌∷◌, [], length, true};
ghost use Rattle.std.specs.Prelude.{false, None, Some, IfSome};
ghost use Rattle.wit_model.specs.Rules.Names.{is_file_name};
ghost use Rattle.wit_model.specs.Trace.Moving.{moves, moving_outcome, read_to};
ghost use Rattle.wit_model.specs.Trace.Output.{Logs, call_of, summed};
ghost use Rattle.wit_model.specs.Trace.Reading.{line_of};
ghost use Rattle.wit_grammar.specs.Lines.{Begins, as_line};
ghost use Rattle.wit_grammar.specs.declared.parse.TheConstants.{LONGEST};
ghost use Rattle.wit_world.specs.Steps.{makes_lock};
ghost use Rattle.wit_lines.specs.LineCalls.{Keeps, as_call};
ghost use Rattle.wit_migrate.specs.Migrates.{IsLineOf, MovesAsDue, moving_reports, standing};
ghost use Rattle.wit_migrate.specs.Migrates.{weight};
ghost use Rattle.wit_lines.specs.Replays.{total};

use crate::steps::{do_beside, step_beside};
use crate::texts::line_in;
use std::alloc::Global;
use wit_core::Verifier;
use wit_grammar::{Begun, LineError, finish_line};
use wit_lines::{
    LineCall, assertion, call_of, file_of, file_on_lock, lock_call, number_of, remark, warning,
};
use wit_model::{Call, FileNo, Line, LockLine, SeatNo};
use wit_stream::Summary;
use wit_world::Raw;

/// A verifier that was told the calls so far, and what seats have of the locks themselves.
#[derive(Drop)]
pub struct Behind {
    verifier: Verifier,
    raw: Raw,
    /// Failed assertions and warnings: no log holds them.
    remarks: u64,
}

impl Behind {
    /// Nothing was told yet.
    pub fn new(alloc: Global, verifier: Verifier) -> Behind
        ensures verifier { result.verifier ≡ verifier }
        ensures raw { result.raw ≡ [] }
        ensures remarks { result.remarks ≡ 0 }
    {
        Behind {
            verifier,
            raw: Raw::new(alloc),
            remarks: 0,
        }
    }

    /// The file that was named last: its number and its name.
    #[inline(always)]
    pub fn recent_file(&self) -> Option<(FileNo, &str)>
        ensures name { IfSome result (λ f. is_file_name f.1.now ≡ true) }
        ensures number { IfSome result (λ f. Keeps self.now.verifier f.1.now f.0) }
    {
        self.verifier.recent_file()
    }

    /// What was read so far.
    pub fn summary(&self) -> Summary
        requires { moving_reports (standing self.now) < 2 ^ 64 }
        ensures total { total result ≡ summed (read_to (standing self.now)) None }
        ensures circle { result.circle ≡ false }
    {
        Summary {
            calls: self.verifier.history().len() as u64,
            reports: u64::from(self.verifier.reports()) + self.remarks,
            circle: false,
            bad: None,
        }
    }

    /// A line on a lock makes its call, and is written with the step that goes with it, in the room
    /// of a text that has nothing.
    ///
    /// # Errors
    /// `Bad` where its file gets no number, its call is refused, or the lock doesn't admit the step
    /// that goes with it; `Memory`. The call may have been made then.
    #[inline(always)]
    pub fn enter_on_lock(
        &mut self,
        alloc: Global,
        room: Vec<u8>,
        line: LockLine<&str>,
        bytes: &[u8],
    ) -> Result<Vec<u8>, LineError>
        requires counted { self.old.remarks < 2 ^ 64 - 1 }
        requires few { weight self.old.raw < 2 ^ 64 - 1 }
        requires room { room.items ≡ [] }
        requires found { line_of bytes.now ≡ Some (as_line line) }
        ensures { MovesAsDue (moves self.old.verifier self.old.raw self.old.remarks bytes.now
            (call_of (as_line line.entry))) (standing self.old) (standing self.new) result }
    {
        let file = number_of(&mut self.verifier, file_on_lock(&line))?;
        self.make_call(alloc, room, lock_call(line, file), bytes)
    }

    /// A line of any kind, of which the first word was read.
    ///
    /// # Errors
    /// Those of `enter`; and `Bad` where it spells no line.
    pub fn read(
        &mut self,
        alloc: Global,
        bytes: &[u8],
        begun: Option<Begun<'_>>,
    ) -> Result<Vec<u8>, LineError>
        requires counted { self.old.remarks < 2 ^ 64 - 1 }
        requires few { weight self.old.raw < 2 ^ 64 - 1 }
        requires short { length bytes.now ≤ LONGEST }
        requires begun { Begins begun (line_of bytes.now) }
        ensures { (number : ℕ) → MovesAsDue (moving_outcome (standing self.old) number bytes.now)
            (standing self.old) (standing self.new) result }
    {
        let line = finish_line(alloc, begun)?;
        self.enter(alloc, line, bytes)
    }

    /// A line of any kind makes its call, and is written with the step that goes with it.
    ///
    /// # Errors
    /// Those of `enter_on_lock`; and `Bad` where the line makes no call.
    pub fn enter(&mut self, alloc: Global, line: Line, bytes: &[u8]) -> Result<Vec<u8>, LineError>
        requires counted { self.old.remarks < 2 ^ 64 - 1 }
        requires few { weight self.old.raw < 2 ^ 64 - 1 }
        requires found { line_of bytes.now ≡ Some line }
        ensures { MovesAsDue (moves self.old.verifier self.old.raw self.old.remarks bytes.now
            (call_of line)) (standing self.old) (standing self.new) result }
    {
        let file = number_of(&mut self.verifier, file_of(&line))?;
        let call = call_of(alloc, line, file)?;
        self.make_call(alloc, Vec::new(alloc), call, bytes)
    }

    // A line of the first version has no step of its own.
    #[inline(always)]
    fn make_call(
        &mut self,
        alloc: Global,
        room: Vec<u8>,
        call: LineCall,
        bytes: &[u8],
    ) -> Result<Vec<u8>, LineError>
        requires counted { self.old.remarks < 2 ^ 64 - 1 }
        requires few { weight self.old.raw < 2 ^ 64 - 1 }
        requires room { room.items ≡ [] }
        requires line { IsLineOf (as_call call) bytes.now }
        ensures { MovesAsDue (moves self.old.verifier self.old.raw self.old.remarks bytes.now
            (as_call call)) (standing self.old) (standing self.new) result }
    {
        match call {
            LineCall::Logs(seat, call) => self.log(room, seat, call, bytes),
            LineCall::Asserts(seat, lock, asserted) => {
                let said = assertion(alloc, &self.verifier, seat, lock, asserted);
                remark(&mut self.remarks, said)?;
                Ok(line_in(room, bytes)?)
            }
            LineCall::Warns(seat, lock, flags) => {
                let said = warning(alloc, &self.verifier, seat, lock, flags);
                remark(&mut self.remarks, said)?;
                Ok(line_in(room, bytes)?)
            }
            LineCall::Steps(..) | LineCall::NoCall => Err(LineError::SYNTAX),
        }
    }

    /// A call that is logged is made, and its line written with the step that goes with it, in the
    /// room of a text that has nothing. With one that makes a lock no step of a lock goes.
    ///
    /// # Errors
    /// `Bad` where the call is refused, or the lock doesn't admit the step that goes with it;
    /// `Memory`. The call may have been made then.
    #[inline(always)]
    pub fn log(
        &mut self,
        room: Vec<u8>,
        seat: SeatNo,
        call: Call,
        bytes: &[u8],
    ) -> Result<Vec<u8>, LineError>
        requires few { weight self.old.raw < 2 ^ 64 - 1 }
        requires room { room.items ≡ [] }
        requires line { IsLineOf (Logs seat.0 call) bytes.now }
        ensures { MovesAsDue (moves self.old.verifier self.old.raw self.old.remarks bytes.now
            (Logs seat.0 call)) (standing self.old) (standing self.new) result }
    {
        let step = step_beside(&self.verifier, &self.raw, seat, &call);
        let makes = makes_lock(&call);
        let _reply = self.verifier.call(seat, call)?;
        match step {
            Some(step) => do_beside(room, &mut self.raw, step, bytes),
            None => {
                if makes {
                    self.raw.made();
                }
                Ok(line_in(room, bytes)?)
            }
        }
    }
}

fn makes_lock(call: &Call) -> bool
    ensures { result ≡ makes_lock call.now }
{
    matches!(call, Call::Init(_))
}
