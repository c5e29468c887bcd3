//! Each act once, and once more where memory was refused.

use crate::acts::{Act, Answer, make};
use crate::lines::file_of;
use crate::start::read;
use crate::sums::sum_of;
use std::alloc::Global;
use std::io::Write;
use wit_core::Verifier;
use wit_model::{Fault, FileNo, Instance, Line, SeatNo, TypeNo};

/// A verifier that is asked, and where its answers are told.
#[derive(Drop)]
pub(crate) struct Tries<W> {
    pub(crate) alloc: Global,
    pub(crate) verifier: Verifier,
    pub(crate) output: W,
    /// Whether calls are prepared first.
    pub(crate) prepares: bool,
    /// Whether what the verifier shows at the end is told as a sum.
    pub(crate) sums: bool,
    /// Whether a refusal is the end, but for the release of what is held.
    pub(crate) releases: bool,
}

/// Says a line. The status doesn't tell where nothing can be said: what is missing shows it.
pub(crate) fn say<W: Write>(output: &mut W, text: &str) {
    let _ = writeln!(output, "{text}");
}

impl<W: Write> Tries<W> {
    /// Makes the calls of a trace, and asks all that may be asked behind them.
    pub(crate) fn run(&mut self, text: &str) {
        if let Err(fault) = self.lines(text) {
            let _ = writeln!(self.output, "ends: {fault}");
        }
        if self.sums {
            let sum = sum_of(&self.verifier);
            let _ = writeln!(self.output, "sum {sum}");
        }
    }

    fn lines(&mut self, text: &str) -> Result<(), Fault> {
        for text in text.lines() {
            let line = match read(self.alloc, text) {
                Err(Fault::OutOfMemory) => {
                    say(&mut self.output, "refused: a line, kept");
                    read(self.alloc, text)?
                }
                answer => answer?,
            };
            self.enter(&line)?;
        }
        self.views()
    }

    fn enter(&mut self, line: &Line) -> Result<(), Fault> {
        match line {
            Line::Header { .. } | Line::Profile | Line::Order { .. } | Line::Bless { .. } => Ok(()),
            Line::Init { seat, lock } => self.tell(Act::Init(*seat, lock)),
            Line::Assert {
                seat,
                lock,
                asserted,
            } => self.tell(Act::Assert(*seat, *lock, *asserted)),
            Line::Warn { seat, lock, flags } => self.tell(Act::Warn(*seat, *lock, *flags)),
            line => self.call(line),
        }
    }

    fn call(&mut self, line: &Line) -> Result<(), Fault> {
        let file = match file_of(line) {
            Some(name) => match self.attempt(Act::File(name))? {
                Answer::File(file) => file,
                _ => FileNo(0),
            },
            None => FileNo(0),
        };
        if self.prepares {
            let _ready = self.attempt(Act::Prepare(line, file))?;
        }
        self.tell(Act::Call(line, file))
    }

    fn views(&mut self) -> Result<(), Fault> {
        for act in [Act::Graph, Act::Locks, Act::Circle, Act::Types] {
            self.tell(act)?;
        }
        for seat in 1..=self.verifier.seats() {
            self.tell(Act::LocksOf(SeatNo(seat)))?;
        }
        self.tell(Act::Path(TypeNo(1), TypeNo(2)))
    }

    // Asks, and tells the answer.
    fn tell(&mut self, act: Act<'_>) -> Result<(), Fault> {
        match self.attempt(act)? {
            Answer::File(_) => {}
            Answer::Steps(steps) => {
                let _ = writeln!(self.output, "path {steps:?}");
            }
            Answer::Text(text) => {
                let _ = write!(self.output, "{text}");
            }
            Answer::Reply(reply) => {
                if let Answer::Text(text) = self.attempt(Act::Report(&reply))? {
                    let _ = write!(self.output, "{text}");
                }
            }
        }
        Ok(())
    }

    // Asks once, and once more where memory was refused.
    fn attempt(&mut self, act: Act<'_>) -> Result<Answer, Fault> {
        let before = sum_of(&self.verifier);
        match make(self.alloc, &mut self.verifier, act) {
            Err(Fault::OutOfMemory) => {
                let kept = sum_of(&self.verifier) == before;
                let state = if kept { "kept" } else { "changed" };
                let name = act.name();
                let _ = writeln!(self.output, "refused: {name}, {state}");
                if self.releases {
                    self.release_all();
                    return Err(Fault::OutOfMemory);
                }
                make(self.alloc, &mut self.verifier, act)
            }
            answer => answer,
        }
    }

    // Lets go what is held. A seat that asks for a lock gives that up first, since it may release
    // nothing before.
    fn release_all(&mut self) {
        for seat in 1..=self.verifier.seats() {
            if let Some((lock, _mode)) = self.verifier.pending(SeatNo(seat)) {
                let _ = self.verifier.give_up(SeatNo(seat), lock);
            }
            for spin in [true, false] {
                self.release_kind(SeatNo(seat), spin);
            }
        }
    }

    fn release_kind(&mut self, seat: SeatNo, spin: bool) {
        for _ in 0..4096 {
            let Some(held) = self.newest(seat, spin) else {
                break;
            };
            if held.norelease {
                let _ = self.verifier.releaseok(seat, held.lock);
            }
            let answer = self.verifier.unlock(seat, held.lock, held.mode);
            let (seat, lock) = (seat.0, held.lock.0);
            let _ = writeln!(self.output, "unlock {seat} {lock}: {answer:?}");
            if answer.is_err() {
                break;
            }
        }
    }

    fn newest(&self, seat: SeatNo, spin: bool) -> Option<Instance> {
        let mut newest = None;
        for place in 0..4096 {
            match self.verifier.chain_at(seat, spin, place) {
                None => break,
                held => newest = held,
            }
        }
        newest
    }
}
