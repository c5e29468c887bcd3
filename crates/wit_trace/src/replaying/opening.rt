//! How a replay begins once its prelude is over.

ghost use Rattle.std.specs.Prelude.{◌≡◌, IfOk};
ghost use Rattle.wit_model.specs.Trace.Output.{begun, opened};
ghost use Rattle.wit_model.specs.Rules.Start.{start_fault};
ghost use Rattle.wit_model.specs.Rules.State.{fresh};
ghost use Rattle.wit_lines.specs.Replays.{prelude_of};
ghost use Rattle.wit_trace.specs.Replaying.{Opens, progress_of};

use crate::replaying::Progress;
use crate::replaying::driving::Driving;
use std::alloc::{AllocError, Global};
use wit_core::Verifier;
use wit_lines::{Prelude, verifier_of};
use wit_model::{Cause, Version};
use wit_world::World;

/// A replay with the verifier that the prelude asks for, or the number of the first line whose list
/// is refused, and why.
///
/// # Errors
/// Want of memory alone.
pub fn open(alloc: Global, prelude: Prelude) -> Result<Result<Progress, (u64, Cause)>, AllocError>
    ensures { IfOk result (Opens
        (opened (prelude_of prelude) (start_fault (prelude_of prelude).start))) }
{
    let version = prelude.version();
    match verifier_of(alloc, prelude)? {
        Ok(verifier) => Ok(Ok(begin(alloc, version, verifier)?)),
        Err(bad) => Ok(Err(bad)),
    }
}

// A replay by a verifier that was told nothing yet.
fn begin(alloc: Global, version: Version, verifier: Verifier) -> Result<Progress, AllocError>
    requires { verifier ≡ fresh verifier.start }
    ensures { IfOk result (λ m. progress_of m ≡ begun version verifier.start) }
{
    match version {
        Version::One => Ok(Progress::Reading(Driving::new(verifier))),
        Version::Two => match World::new(alloc, verifier) {
            Ok(world) => Ok(Progress::Stepping(Driving::new(world))),
            Err(_) => Err(AllocError),
        },
    }
}
