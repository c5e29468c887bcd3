//! A held lock that is asked for again.

ghost use Rattle.std.specs.Prelude.{◌≡◌, List};
ghost use Rattle.wit_model.specs.declared.locks.TypeNo.{TypeNo};
ghost use Rattle.wit_model.specs.Rules.Verdict.{again};
ghost use Rattle.wit_check.specs.Answers.{answer_by};

use crate::answers::Verdict;
use bitflags::Flags;
use wit_model::{Fault, Instance, LockFlags, OpFlags, TypedRequest};

/// The verdict on a request for a lock that its seat holds: `SharedOfExclusive` and
/// `ExclusiveOfShared` where the modes differ; `Recursed` where the request says that the lock
/// isn't held, or where it is held exclusive and isn't recursable; else `Pass`.
pub fn again(request: TypedRequest, held: Instance) -> Verdict
    ensures { (new : List (TypeNo × TypeNo)) → answer_by new result ≡ again request held }
{
    let wanted = request.mode.is_exclusive();
    let exclusive = held.mode.is_exclusive();
    if exclusive && !wanted {
        return Verdict::Fault(Fault::SharedOfExclusive);
    }
    if !exclusive && wanted {
        return Verdict::Fault(Fault::ExclusiveOfShared);
    }
    if request.ops.contains(OpFlags::FRESH) {
        return Verdict::Fault(Fault::Recursed);
    }
    if exclusive && !request.flags.contains(LockFlags::RECURSABLE) {
        return Verdict::Fault(Fault::Recursed);
    }
    Verdict::Pass
}
