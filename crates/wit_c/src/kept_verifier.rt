//! What a place holds: a verifier, and what it answered last.

ghost use Rattle.std.specs.Prelude.{◌≡◌, Result, Ok};
ghost use Rattle.std.specs.Option.{option_copied};
ghost use Rattle.wit_core.specs.Replies.{new_lock};
ghost use Rattle.wit_model.specs.declared.calls.Call.TheVariants.{Init};
ghost use Rattle.wit_model.specs.declared.calls.Reply.TheVariants.{Pass};
ghost use Rattle.wit_model.specs.declared.faults.Fault.{Fault};
ghost use Rattle.wit_model.specs.declared.locks.FileNo.{FileNo};
ghost use Rattle.wit_model.specs.Rules.Files.{NamesFile};
ghost use Rattle.wit_model.specs.Rules.Step.{AnswersOrFails};
ghost use Rattle.wit_c.specs.Numbers.{answer_number, file_number};

use crate::numbers::{answer_number, file_number};
use wit_core::Verifier;
use wit_model::{Class, Fault, LockFlags, Reply, SeatNo};

/// A verifier, with its answer to the last call that it logs or refuses, of which a report tells.
#[derive(Drop)]
pub struct KeptVerifier {
    pub(crate) verifier: Verifier,
    pub(crate) last: Result<Reply, Fault>,
}

impl KeptVerifier {
    // One that has answered nothing: there is nothing to report.
    pub(crate) fn new(verifier: Verifier) -> KeptVerifier
        ensures verifier { result.verifier ≡ verifier }
        ensures last { result.last ≡ Ok Pass }
    {
        KeptVerifier {
            verifier,
            last: Ok(Reply::Pass),
        }
    }

    // Keeps an answer, and tells its number.
    #[inline(always)]
    pub(crate) fn keep(&mut self, answer: Result<Reply, Fault>) -> i64
        ensures verifier { self.new.verifier ≡ self.old.verifier }
        ensures last { self.new.last ≡ answer }
        ensures number { result ≡ answer_number answer }
    {
        let number = answer_number(&answer);
        self.last = answer;
        number
    }
    // Makes a lock.
    pub(crate) fn init(
        &mut self,
        seat: SeatNo,
        name: &str,
        type_name: Option<&str>,
        class: Class,
        flags: LockFlags,
    ) -> i64
        ensures answer { AnswersOrFails self.old.verifier seat.0
            (Init (new_lock name.now (option_copied type_name.entry) class flags))
            self.new.last self.new.verifier }
        ensures number { result ≡ answer_number self.new.last }
    {
        let answer = match self.verifier.init(seat, name, type_name, class, flags) {
            Ok(lock) => Ok(Reply::Made(lock)),
            Err(fault) => Err(fault),
        };
        self.keep(answer)
    }
    // Names a file to it.
    pub(crate) fn name_file(&mut self, name: &str) -> i64
        ensures answer { (answer : Result FileNo Fault)
            × (NamesFile self.old.verifier name.now answer self.new.verifier
            × (result ≡ file_number answer)) }
        ensures last { self.new.last ≡ self.old.last }
    {
        let answer = self.verifier.file(name);
        file_number(answer)
    }
}
