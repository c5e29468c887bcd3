//! Two locks of one type.

ghost use Rattle.std.specs.Prelude.{◌≡◌, List};
ghost use Rattle.wit_model.specs.declared.locks.TypeNo.{TypeNo};
ghost use Rattle.wit_model.specs.Rules.Numbers.{IsGiven};
ghost use Rattle.wit_model.specs.Rules.Verdict.{doubled, place_of, place_asked};
ghost use Rattle.wit_check.specs.Answers.{answer_by};

use crate::answers::Verdict;
use crate::basis::Basis;
use bitflags::Flags;
use wit_model::{Doubling, Instance, LockAt, LockFlags, OpFlags, TypedRequest};

/// The verdict where this held lock is of the requested type: reported once for a type, and never
/// where the lock, or the request, allows it.
pub fn doubled(basis: &Basis, request: TypedRequest, last: Instance) -> Verdict
    requires { IsGiven basis.now.types request.type_no.0 }
    ensures { (new : List (TypeNo × TypeNo))
        → answer_by new result ≡ doubled basis.now request last }
{
    let asked = request.type_no;
    if request.flags.contains(LockFlags::DUPOK) || request.ops.contains(OpFlags::DUPOK) {
        return Verdict::Pass;
    }
    if basis.is_found(asked, asked) {
        return Verdict::Silent(asked, asked);
    }
    Verdict::Duplicate(Doubling {
        last: place_of(last),
        asked: place_asked(request),
    })
}

/// A held lock, where it was acquired.
pub fn place_of(held: Instance) -> LockAt
    ensures { result ≡ place_of held }
{
    LockAt {
        lock: held.lock,
        site: held.site,
    }
}

/// The requested lock, where it is asked for.
pub fn place_asked(request: TypedRequest) -> LockAt
    ensures { result ≡ place_asked request }
{
    LockAt {
        lock: request.lock,
        site: request.site,
    }
}
