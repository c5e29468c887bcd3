//! How a replay gets to a line: where the prelude ends before it, the verifier or the world is
//! made.

ghost use Rattle.std.specs.Prelude.{◌≡◌, ℕ, List, true, IfOk};
ghost use Rattle.wit_model.specs.Trace.Output.{reached};
ghost use Rattle.wit_lines.specs.Replays.{ends_prelude, reports_told, StandsAsDue};
ghost use Rattle.wit_trace.specs.Replaying.{progress_of};

use crate::replaying::Progress;
use crate::replaying::opening::open;
use std::alloc::{AllocError, Global};
use std::mem;
use wit_lines::is_prelude;
use wit_model::Cause;

impl Progress {
    /// The prelude ends before a line that begins otherwise; a list that is refused then is the bad
    /// line.
    ///
    /// # Errors
    /// Want of memory alone.
    #[inline(always)]
    pub fn reach(
        &mut self,
        alloc: Global,
        number: u64,
        line: &[u8],
    ) -> Result<Option<(u64, Cause)>, AllocError>
        ensures stands { IfOk result
            (StandsAsDue (reached (progress_of self.old) number line.now) (progress_of self.old)
            (progress_of self.new)) }
        ensures counted { IfOk result (λ r. reports_told (progress_of self.new)
            ≡ reports_told (progress_of self.old)) }
    {
        if self.ends_prelude(number, line) {
            self.end_prelude(alloc)
        } else {
            Ok(None)
        }
    }

    // By itself, so that no other line pays for its large locals.
    #[cold]
    #[inline(never)]
    fn end_prelude(&mut self, alloc: Global) -> Result<Option<(u64, Cause)>, AllocError>
        ensures { (number : ℕ) (line : List ℕ)
            → ends_prelude (progress_of self.old) number line ≡ true
            → IfOk result (StandsAsDue (reached (progress_of self.old) number line)
            (progress_of self.old) (progress_of self.new)) }
    {
        match mem::replace(self, Progress::Unstarted) {
            Progress::Opening(prelude) => match open(alloc, prelude)? {
                Ok(begun) => {
                    *self = begun;
                    Ok(None)
                }
                Err(bad) => Ok(Some(bad)),
            },
            before => {
                *self = before;
                Ok(None)
            }
        }
    }

    #[inline(always)]
    fn ends_prelude(&self, number: u64, line: &[u8]) -> bool
        ensures { result ≡ ends_prelude (progress_of self.now) number line.now }
    {
        match self {
            Progress::Opening(_) => !is_prelude(number, line),
            _ => false,
        }
    }
}
