//! What reads the lines of a stream.

ghost use Rattle.std.specs.Prelude.{◌≡◌, ℕ, ◌+◌, ◌<◌, ◌≤◌, List, [], length, IfOk};
ghost use Rattle.wit_stream.specs.Text.{HasNoFeed};
ghost use Rattle.wit_stream.specs.Machine.{Follows, BreaksAt};
ghost use Rattle.wit_stream.specs.declared.summary.Summary.{Summary};
ghost use Rattle.wit_grammar.specs.declared.parse.TheConstants.{LONGEST};

use crate::summary::Summary;
use std::alloc::{AllocError, Global};
use wit_model::{Boxed, Cause};

/// What becomes of a whole line, once its text is written. It is passed on for each, and so is
/// small.
#[derive(Drop)]
pub enum Step {
    /// The next line is read.
    Goes,
    /// The reading ends.
    Ends(Boxed<Summary>),
}

/// Reads lines one at a time, writes texts, and ends with a summary.
///
/// `allows by m number lines tail text summary` says that from `m` on, where the next line has this
/// number and these whole lines and this unfinished one are still to come, this text may be written
/// by a machine that shows by this what it reads, and this summary given. `shows_by m` is that of a
/// machine, and stays the same. Some text and summary are always allowed. `reports m` is at least
/// how many reports the machine has counted, and a line adds one at most.
pub trait Machine {
    /// By what it shows what it reads.
    type View;

    ghost shows_by: { Self → Self.View };

    ghost allows: { Self.View → Self → ℕ → List (List ℕ) → List ℕ → List ℕ → Summary → Type 0 };

    ghost reports: { Self → ℕ };

    /// Reads a whole line of at most 4,096 bytes, without its line feed, and puts what is to be
    /// written of it into the text. Lines count from 1.
    ///
    /// # Errors
    /// Want of memory alone; nothing is promised then.
    fn line(
        &mut self,
        alloc: Global,
        number: u64,
        bytes: &[u8],
        text: &mut Vec<u8>,
    ) -> Result<Step, AllocError>
        requires room { reports self.old < number }
        requires empty { text.old.items ≡ [] }
        requires short { length bytes.now ≤ LONGEST }
        requires plain { HasNoFeed bytes.now }
        ensures step { IfOk result (Follows (allows (shows_by self.old)) self.old self.new
            number bytes.now text.new.items) }
        ensures kept { IfOk result (λ s. shows_by self.new ≡ shows_by self.old) }
        ensures counted { IfOk result (λ s. reports self.new ≤ reports self.old + 1) };

    /// Ends at a line that is too long, of which at least 4,097 bytes are given, or at one that the
    /// input ends in.
    ///
    /// # Errors
    /// Want of memory alone; nothing is promised then.
    fn broken(
        &mut self,
        alloc: Global,
        number: u64,
        beginning: &[u8],
        cause: Cause,
    ) -> Result<(Vec<u8>, Summary), AllocError>
        requires { reports self.old < number }
        ensures { IfOk result (λ r. (lines : List (List ℕ)) (tail : List ℕ) →
            BreaksAt cause beginning.now lines tail →
            allows (shows_by self.old) self.old number lines tail r.0.items r.1) };

    /// Ends after a whole line, or before the first.
    ///
    /// # Errors
    /// Want of memory alone; nothing is promised then.
    fn end(&mut self, alloc: Global, number: u64) -> Result<(Vec<u8>, Summary), AllocError>
        requires { reports self.old < number }
        ensures { IfOk result (λ r. allows (shows_by self.old) self.old number [] []
            r.0.items r.1) };

    ghost answers: { (by : Self.View) (m : Self) (number : ℕ) (lines : List (List ℕ))
        (tail : List ℕ) →
        (text : List ℕ) × ((summary : Summary) × allows by m number lines tail text summary) };
}
