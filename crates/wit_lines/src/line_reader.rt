//! What reads the frequent lines of a trace.

ghost use Rattle.std.specs.Prelude.{◌≡◌, ℕ, List, true, IfOk, IfSome, Some};
ghost use Rattle.wit_model.specs.Rules.Names.{is_file_name};
ghost use Rattle.wit_model.specs.declared.locks.FileNo.{FileNo};
ghost use Rattle.wit_model.specs.Trace.Reading.{line_of};
ghost use Rattle.wit_grammar.specs.Lines.{Begins, as_line};
ghost use Rattle.wit_stream.specs.declared.machine.Step.{Step};
ghost use Rattle.wit_lines.specs.LineCalls.{Makes};

use std::alloc::{AllocError, Global};
use wit_grammar::Begun;
use wit_model::{Call, FileNo, LockLine, SeatNo};
use wit_stream::Step;

/// What reads whole lines once the prelude is over. `may by x number line text` says that it may
/// read this line, of which this text was told so far; `has by old number line new text step` that
/// it did. `names x file number` says that a file has this number, and that to name it changes
/// nothing.
pub trait LineReader {
    /// By what it shows what it reads.
    type View: Copy;

    ghost may: { Self.View → Self → ℕ → List ℕ → List ℕ → Type 0 };

    ghost has: { Self.View → Self → ℕ → List ℕ → Self → List ℕ → Step → Type 0 };

    ghost names: { Self → List ℕ → FileNo → Type 0 };

    /// The file that was named last, which most sites name: its number and its name.
    fn recent_file(&self) -> Option<(FileNo, &str)>
        ensures name { IfSome result (λ f. is_file_name f.1.now ≡ true) }
        ensures number { IfSome result (λ f. names self.now f.1.now f.0) };

    /// A line that makes this call, which is logged.
    ///
    /// # Errors
    /// Want of memory alone.
    fn read_call(
        &mut self,
        alloc: Global,
        view: Self::View,
        number: u64,
        bytes: &[u8],
        seat: SeatNo,
        call: Call,
        text: &mut Vec<u8>,
    ) -> Result<Step, AllocError>
        requires ready { may view self.old number bytes.now text.old.items }
        requires found { Makes (names self.old) bytes.now seat.0 call }
        ensures { IfOk result (has view self.old number bytes.now self.new text.new.items) };

    /// A line on a lock.
    ///
    /// # Errors
    /// Want of memory alone.
    fn read_on_lock(
        &mut self,
        alloc: Global,
        view: Self::View,
        number: u64,
        bytes: &[u8],
        line: LockLine<&str>,
        text: &mut Vec<u8>,
    ) -> Result<Step, AllocError>
        requires ready { may view self.old number bytes.now text.old.items }
        requires found { line_of bytes.now ≡ Some (as_line line) }
        ensures { IfOk result (has view self.old number bytes.now self.new text.new.items) };

    /// A line of any kind, of which the first word was read.
    ///
    /// # Errors
    /// Want of memory alone.
    fn read_any(
        &mut self,
        alloc: Global,
        view: Self::View,
        number: u64,
        bytes: &[u8],
        begun: Option<Begun<'_>>,
        text: &mut Vec<u8>,
    ) -> Result<Step, AllocError>
        requires ready { may view self.old number bytes.now text.old.items }
        requires begun { Begins begun (line_of bytes.now) }
        ensures { IfOk result (has view self.old number bytes.now self.new text.new.items) };
}
