//! What lines drive once the prelude is over: a verifier, or in the second version a world that has
//! one.

ghost use Rattle.std.specs.Prelude.{◌≡◌, ℕ, Some, IfOk, IfErr};
ghost use Rattle.wit_model.specs.declared.faults.Fault.TheVariants.{OutOfMemory};
ghost use Rattle.wit_model.specs.Rules.Circles.{TellsCircle, Waits, circle_numbers};
ghost use Rattle.wit_model.specs.Rules.State.{Story, state_of};
ghost use Rattle.wit_model.specs.Trace.LineCalls as model;
ghost use Rattle.wit_model.specs.Trace.Output as output;
ghost use Rattle.wit_model.specs.World.Shown.{WaitsIn};
ghost use Rattle.wit_lines.specs.Driven.{Drives, NumbersLine, Answers, Does, drives_verifier, drives_world};
ghost use Rattle.wit_lines.specs.LineCalls.{file_named};

use wit_core::Verifier;
use wit_grammar::LineError;
use wit_model::{Call, Fault, FileNo, LockNo, RawStep, Reply, SeatNo};
use wit_world::World;

/// What the lines of a trace drive. `reading d m` is how far the reading is where it stands at `d`
/// and `m` failed assertions and warnings were told; `due d m call` is what should become of a line
/// that makes this call then.
pub trait Driven {
    ghost story: { Self → Story };

    ghost reading: { Self → ℕ → output.Progress };

    ghost due: { Self → ℕ → model.LineCall → output.Outcome };

    ghost waits: { Self → ℕ → ℕ → Type 0 };

    /// The verifier.
    fn verifier(&self) -> &Verifier
        ensures { result.now ≡ story self.now };

    /// The number of a file: `Verifier::file`.
    ///
    /// # Errors
    /// `Bad` where it gets none, `Memory`.
    fn number_of(&mut self, file: &str) -> Result<FileNo, LineError>
        ensures { (c : model.LineCall) → file_named c ≡ Some file.now
            → NumbersLine (due self.old) (due self.new) (reading self.old) (reading self.new) c
            result };

    /// A seat makes a call that is logged: `Verifier::call`.
    ///
    /// # Errors
    /// `Bad` where it is refused, `Memory`.
    fn make(&mut self, seat: SeatNo, call: Call) -> Result<Reply, LineError>
        ensures { Answers (λ m. due self.old m (model.Logs seat.0 call)) (reading self.old)
            (reading self.new) (story self.new) result };

    /// A seat does something to a lock itself.
    ///
    /// # Errors
    /// `Bad` where the version has no such lines, or the lock or the sequence of the seat's steps
    /// doesn't admit it; `Memory`.
    fn step(&mut self, seat: SeatNo, lock: LockNo, step: RawStep) -> Result<(), LineError>
        ensures { Does (λ m. due self.old m (model.Steps seat.0 lock step)) (reading self.old)
            (reading self.new) result };

    /// Seats that wait for one another in a circle, if there is one.
    ///
    /// # Errors
    /// `OutOfMemory` alone.
    fn circle(&self) -> Result<Option<Vec<SeatNo>>, Fault>
        ensures ok { IfOk result (λ c. TellsCircle (waits self.now) (circle_numbers c)) }
        ensures err { IfErr result (λ e. e ≡ OutOfMemory) };

    ghost drives: { (d : Self) → Drives (story d) (reading d) (due d) (waits d) };
}

impl Driven for Verifier {
    ghost story = { λ s. s };

    ghost reading = { output.Reading };

    ghost due = { output.calls };

    ghost waits = { λ s. Waits (state_of s) };

    #[inline(always)]
    fn verifier(&self) -> &Verifier {
        self
    }

    #[inline(always)]
    fn number_of(&mut self, file: &str) -> Result<FileNo, LineError> {
        Ok(self.file(file)?)
    }

    #[inline(always)]
    fn make(&mut self, seat: SeatNo, call: Call) -> Result<Reply, LineError> {
        Ok(self.call(seat, call)?)
    }

    // The first version has no step of a lock itself.
    #[inline(always)]
    fn step(&mut self, _seat: SeatNo, _lock: LockNo, _step: RawStep) -> Result<(), LineError> {
        Err(LineError::SYNTAX)
    }

    fn circle(&self) -> Result<Option<Vec<SeatNo>>, Fault> {
        self.wait_circle()
    }

    ghost drives = { drives_verifier };
}

impl Driven for World {
    ghost story = { λ w. w.story };

    ghost reading = { output.Stepping };

    ghost due = { output.calls_in };

    ghost waits = { WaitsIn };

    #[inline(always)]
    fn verifier(&self) -> &Verifier {
        self.verifier()
    }

    #[inline(always)]
    fn number_of(&mut self, file: &str) -> Result<FileNo, LineError> {
        Ok(self.file(file)?)
    }

    #[inline(always)]
    fn make(&mut self, seat: SeatNo, call: Call) -> Result<Reply, LineError> {
        Ok(self.call(seat, call)?)
    }

    #[inline(always)]
    fn step(&mut self, seat: SeatNo, lock: LockNo, step: RawStep) -> Result<(), LineError> {
        Ok(self.step(seat, lock, step)?)
    }

    fn circle(&self) -> Result<Option<Vec<SeatNo>>, Fault> {
        self.wait_circle()
    }

    ghost drives = { drives_world };
}
