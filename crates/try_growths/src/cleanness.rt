//! Whether the calls of a trace leave a clean log, and which line stands against that.

use crate::acts::{Act, make};
use crate::lines::{call_of, file_of};
use crate::start::read;
use std::alloc::Global;
use std::io::Write;
use wit_core::Verifier;
use wit_model::{Fault, FileNo, Line, Profile};
use wit_recordings::{is_clean, is_clean_call};

/// A verifier that makes the calls of a trace.
#[derive(Drop)]
pub(crate) struct Recording {
    alloc: Global,
    verifier: Verifier,
    profile: Profile,
    /// The first line that keeps the log from being clean, or blesses a pair; 0 for none.
    against: u64,
}

/// Makes the calls of a trace with the verifier that it begins with. Tells `clean`, or the first
/// line that stands against that, or `reported` where no line does.
pub(crate) fn tell_clean<W: Write>(alloc: Global, verifier: Verifier, output: &mut W, text: &str) {
    let mut recording = Recording {
        alloc,
        verifier,
        profile: Profile::Plain,
        against: 0,
    };
    if let Err(fault) = recording.lines(text) {
        let _ = writeln!(output, "ends: {fault}");
    }
    let clean = is_clean(recording.profile, recording.verifier.history());
    let _ = match (clean, recording.against) {
        (true, 0) => writeln!(output, "clean"),
        (false, 0) => writeln!(output, "reported"),
        (_, against) => writeln!(output, "line {against}"),
    };
}

impl Recording {
    fn lines(&mut self, text: &str) -> Result<(), Fault> {
        let mut number: u64 = 0;
        for text in text.lines() {
            number = number.saturating_add(1);
            let line = read(self.alloc, text)?;
            self.enter(&line)?;
            if self.against == 0 && !self.is_for(&line) {
                self.against = number;
            }
        }
        Ok(())
    }

    fn enter(&mut self, line: &Line) -> Result<(), Fault> {
        match line {
            Line::Profile => {
                self.profile = Profile::AllHeld;
                Ok(())
            }
            Line::Init { seat, lock } => {
                make(self.alloc, &mut self.verifier, Act::Init(*seat, lock))?;
                Ok(())
            }
            line => self.call(line),
        }
    }

    // Makes the call of a line. Steps of locks, assertions and warnings aren't logged.
    fn call(&mut self, line: &Line) -> Result<(), Fault> {
        let file = match file_of(line) {
            Some(name) => self.verifier.file(name)?,
            None => FileNo(0),
        };
        if let Some((seat, call)) = call_of(line, file) {
            let _reply = self.verifier.call(seat, call)?;
        }
        Ok(())
    }

    // Whether the line that was entered last blesses no pair, and its call leaves a log clean.
    fn is_for(&self, line: &Line) -> bool {
        match (line, self.verifier.history().last()) {
            (Line::Bless { .. }, _) => false,
            (_, Some(entry)) => is_clean_call(self.profile, &entry.call),
            (_, None) => true,
        }
    }
}
