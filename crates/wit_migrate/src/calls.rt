//! The lines past the prelude of a trace that is migrated, of which most make a call that is logged.

ghost use Rattle.wit_lines.specs.LineCalls.{Keeps};
ghost use Rattle.wit_migrate.specs.Migrates.{MayMove, HasMoved};
ghost use Rattle.wit_migrate.specs.declared.migrating.Migrating.TheVariants.{Moved};

use crate::behind::Behind;
use crate::endings::failed_step;
use std::alloc::{AllocError, Global};
use std::mem;
use wit_grammar::Begun;
use wit_lines::LineReader;
use wit_model::{Call, FileNo, LockLine, SeatNo};
use wit_stream::Step;

// What stands behind the prelude reads them itself: so no line asks again whether it is over.
impl LineReader for Behind {
    // There is one way to write lines.
    type View = ();

    ghost may = { λ view b number line text. MayMove (Moved b) number line text };

    ghost has = { λ view old number line new text step.
        HasMoved (Moved old) number line (Moved new) text step };

    ghost names = { λ b. Keeps b.verifier };

    #[inline(always)]
    fn recent_file(&self) -> Option<(FileNo, &str)> {
        Behind::recent_file(self)
    }

    // It makes its call at once.
    #[inline(always)]
    fn read_call(
        &mut self,
        alloc: Global,
        _view: (),
        number: u64,
        bytes: &[u8],
        seat: SeatNo,
        call: Call,
        text: &mut Vec<u8>,
    ) -> Result<Step, AllocError> {
        let found = self.summary();
        let room = mem::replace(text, Vec::new(alloc));
        match self.log(room, seat, call, bytes) {
            Ok(told) => {
                *text = told;
                Ok(Step::Goes)
            }
            Err(error) => failed_step(alloc, found, number, error, text),
        }
    }

    // It makes its call at once.
    #[inline(always)]
    fn read_on_lock(
        &mut self,
        alloc: Global,
        _view: (),
        number: u64,
        bytes: &[u8],
        line: LockLine<&str>,
        text: &mut Vec<u8>,
    ) -> Result<Step, AllocError> {
        let found = self.summary();
        let room = mem::replace(text, Vec::new(alloc));
        match self.enter_on_lock(alloc, room, line, bytes) {
            Ok(told) => {
                *text = told;
                Ok(Step::Goes)
            }
            Err(error) => failed_step(alloc, found, number, error, text),
        }
    }

    // By itself, so that a call on a lock doesn't pay for it.
    #[inline(never)]
    fn read_any(
        &mut self,
        alloc: Global,
        _view: (),
        number: u64,
        bytes: &[u8],
        begun: Option<Begun<'_>>,
        text: &mut Vec<u8>,
    ) -> Result<Step, AllocError> {
        let found = self.summary();
        match self.read(alloc, bytes, begun) {
            Ok(told) => {
                *text = told;
                Ok(Step::Goes)
            }
            Err(error) => failed_step(alloc, found, number, error, text),
        }
    }
}
