//! A reading once the prelude is over: what its lines drive, and what was told that no log holds.

ghost use Rattle.std.specs.Prelude.{◌≡◌, ◌-◌, ◌<◌, ◌^◌, ℕ, Option};
ghost use Rattle.std.specs.Option.{option_copied};
ghost use Rattle.wit_model.specs.Trace.LineCalls as model;
ghost use Rattle.wit_model.specs.Trace.LineCalls.{call_of};
ghost use Rattle.wit_grammar.specs.Lines.{Begins, as_line};
ghost use Rattle.wit_model.specs.declared.lines.Line.{Line};
ghost use Rattle.wit_model.specs.Trace.Output.{read_as};
ghost use Rattle.wit_lines.specs.LineCalls.{Keeps, as_call, file_named};
ghost use Rattle.wit_lines.specs.Driven.{NumbersLine};
ghost use Rattle.wit_lines.specs.Replays.{GoesAsDue, IsRead, MayReadAt, reports_told};

use crate::replaying::driven::Driven;
use crate::replaying::views::show;
use std::alloc::{AllocError, Global};
use wit_grammar::{Begun, LineError, finish_line};
use wit_lines::{
    LineCall, LineReader, View, assertion, call_of, file_of, file_on_lock, lock_call, remark,
    text_of_reply, warning,
};
use wit_model::{Call, FileNo, Line, LockLine, LockNo, RawStep, SeatNo};
use wit_stream::Step;

/// What lines drive, and how many failed assertions and warnings were told: no log holds these.
#[derive(Drop)]
pub struct Driving<D> {
    pub driven: D,
    pub remarks: u64,
}

impl<D: Driven> Driving<D> {
    /// Nothing was told yet.
    pub fn new(driven: D) -> Driving<D>
        ensures { result ≡ record { driven = driven; remarks = 0 } }
    {
        Driving { driven, remarks: 0 }
    }

    /// A line of which the first word was read.
    ///
    /// # Errors
    /// `Bad` where it spells no line, or what it spells has no place here or is refused; `Memory`.
    pub fn read(&mut self, alloc: Global, begun: Option<Begun<'_>>) -> Result<Vec<u8>, LineError>
        requires { self.old.remarks < 2 ^ 64 - 1 }
        ensures { (number : ℕ) (line : Option Line) → Begins begun.entry line
            → GoesAsDue (read_as (D.reading self.old.driven self.old.remarks) number line)
            (D.reading self.old.driven self.old.remarks)
            (D.reading self.new.driven self.new.remarks) result }
    {
        let line = finish_line(alloc, begun)?;
        self.enter(alloc, line)
    }

    /// A line makes its call, or its step, and tells of it; one with a site enters its file first.
    ///
    /// # Errors
    /// `Bad` where the line makes no call, its file gets no number, or its call or step is refused.
    /// `Memory`: the call may have been made then.
    pub fn enter(&mut self, alloc: Global, line: Line) -> Result<Vec<u8>, LineError>
        requires { self.old.remarks < 2 ^ 64 - 1 }
        ensures { GoesAsDue (D.due self.old.driven self.old.remarks (call_of line))
            (D.reading self.old.driven self.old.remarks)
            (D.reading self.new.driven self.new.remarks) result }
    {
        let file = self.number_of(file_of(&line))?;
        let call = call_of(alloc, line, file)?;
        self.make(alloc, call)
    }

    // A line on a lock makes its call, or its step, and tells of it.
    #[inline(always)]
    fn enter_on_lock(&mut self, alloc: Global, line: LockLine<&str>) -> Result<Vec<u8>, LineError>
        requires { self.old.remarks < 2 ^ 64 - 1 }
        ensures { GoesAsDue (D.due self.old.driven self.old.remarks
            (call_of (as_line line.entry)))
            (D.reading self.old.driven self.old.remarks)
            (D.reading self.new.driven self.new.remarks) result }
    {
        // It names no file and makes no call.
        if let LockLine::Step { seat, lock, step } = line {
            return self.step(alloc, seat, lock, step);
        }
        let file = self.number_of(file_on_lock(&line))?;
        match lock_call(line, file) {
            LineCall::Logs(seat, call) => self.log(alloc, seat, call),
            call => self.make(alloc, call),
        }
    }

    // The number of the file that a line names; of one that names none, no file's.
    #[inline(always)]
    fn number_of(&mut self, file: Option<&str>) -> Result<FileNo, LineError>
        ensures numbers { (c : model.LineCall) → file_named c ≡ option_copied file.entry
            → NumbersLine (D.due self.old.driven) (D.due self.new.driven)
            (D.reading self.old.driven) (D.reading self.new.driven) c result }
        ensures remarks { self.new.remarks ≡ self.old.remarks }
    {
        match file {
            Some(file) => self.driven.number_of(file),
            None => Ok(FileNo(0)),
        }
    }

    // By itself, so that a call that is logged doesn't pay for it.
    #[inline(never)]
    fn make(&mut self, alloc: Global, call: LineCall) -> Result<Vec<u8>, LineError>
        requires { self.old.remarks < 2 ^ 64 - 1 }
        ensures { GoesAsDue (D.due self.old.driven self.old.remarks (as_call call))
            (D.reading self.old.driven self.old.remarks)
            (D.reading self.new.driven self.new.remarks) result }
    {
        match call {
            LineCall::Logs(seat, call) => self.log(alloc, seat, call),
            LineCall::Steps(seat, lock, step) => self.step(alloc, seat, lock, step),
            LineCall::Asserts(seat, lock, asserted) => {
                let told = assertion(alloc, self.driven.verifier(), seat, lock, asserted);
                remark(&mut self.remarks, told)
            }
            LineCall::Warns(seat, lock, flags) => {
                let told = warning(alloc, self.driven.verifier(), seat, lock, flags);
                remark(&mut self.remarks, told)
            }
            LineCall::NoCall => Err(LineError::SYNTAX),
        }
    }

    #[inline(always)]
    fn log(&mut self, alloc: Global, seat: SeatNo, call: Call) -> Result<Vec<u8>, LineError>
        ensures { GoesAsDue (D.due self.old.driven self.old.remarks (model.Logs seat.0 call))
            (D.reading self.old.driven self.old.remarks)
            (D.reading self.new.driven self.new.remarks) result }
    {
        let reply = self.driven.make(seat, call)?;
        Ok(text_of_reply(alloc, self.driven.verifier(), reply)?)
    }

    // A step has no text.
    #[inline(always)]
    fn step(
        &mut self,
        alloc: Global,
        seat: SeatNo,
        lock: LockNo,
        step: RawStep,
    ) -> Result<Vec<u8>, LineError>
        ensures { GoesAsDue (D.due self.old.driven self.old.remarks
            (model.Steps seat.0 lock step))
            (D.reading self.old.driven self.old.remarks)
            (D.reading self.new.driven self.new.remarks) result }
    {
        self.driven.step(seat, lock, step)?;
        Ok(Vec::new(alloc))
    }
}

impl<D: Driven> LineReader for Driving<D> {
    type View = View;

    ghost may = { λ view d number line text.
        MayReadAt (D.reading d.driven d.remarks) number line text };

    ghost has = { λ view old number line new text step. IsRead view
        (D.reading old.driven old.remarks) number line (D.reading new.driven new.remarks)
        text step };

    ghost names = { λ d. Keeps (D.story d.driven) };

    #[inline(always)]
    fn recent_file(&self) -> Option<(FileNo, &str)> {
        self.driven.verifier().recent_file()
    }

    #[inline(always)]
    fn read_call(
        &mut self,
        alloc: Global,
        view: View,
        number: u64,
        _bytes: &[u8],
        seat: SeatNo,
        call: Call,
        text: &mut Vec<u8>,
    ) -> Result<Step, AllocError> {
        match self.log(alloc, seat, call) {
            Ok(told) => {
                show(alloc, view, told, text);
                Ok(Step::Goes)
            }
            Err(error) => self.ended_step(alloc, number, error, text),
        }
    }

    #[inline(always)]
    fn read_on_lock(
        &mut self,
        alloc: Global,
        view: View,
        number: u64,
        _bytes: &[u8],
        line: LockLine<&str>,
        text: &mut Vec<u8>,
    ) -> Result<Step, AllocError> {
        match self.enter_on_lock(alloc, line) {
            Ok(told) => {
                show(alloc, view, told, text);
                Ok(Step::Goes)
            }
            Err(error) => self.ended_step(alloc, number, error, text),
        }
    }

    // By itself, so that a call on a lock doesn't pay for it.
    #[inline(never)]
    fn read_any(
        &mut self,
        alloc: Global,
        view: View,
        number: u64,
        _bytes: &[u8],
        begun: Option<Begun<'_>>,
        text: &mut Vec<u8>,
    ) -> Result<Step, AllocError> {
        match self.read(alloc, begun) {
            Ok(told) => {
                show(alloc, view, told, text);
                Ok(Step::Goes)
            }
            Err(error) => self.ended_step(alloc, number, error, text),
        }
    }
}
