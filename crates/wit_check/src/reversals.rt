//! A held lock violates an order.

ghost use Rattle.std.specs.Prelude.{◌≡◌, List, find, reverse};
ghost use Rattle.std.specs.List.{before_first};
ghost use Rattle.wit_model.specs.Rules.Numbers.{IsGiven};
ghost use Rattle.wit_model.specs.Rules.Verdict.{is_of, has_type_of, reported};
ghost use Rattle.wit_model.specs.declared.locks.Instance.{Instance};
ghost use Rattle.wit_model.specs.declared.locks.TypeNo.{TypeNo};
ghost use Rattle.wit_check.specs.Answers.{answer_by};

use crate::answers::Verdict;
use crate::basis::Basis;
use crate::duplicates::{place_asked, place_of};
use crate::orders::{breach, sort_of};
use wit_model::{Conflict, Heading, Instance, TypedRequest};

/// The verdict where a held lock violates an order: reported once for a pair of types, and never
/// where the pair is blessed. `older` is the newest lock of the requested type among those older
/// than the one that violates the order.
pub fn reported(
    basis: &Basis,
    request: TypedRequest,
    broken: Instance,
    older: Option<Instance>,
) -> Verdict
    requires held { IsGiven basis.now.lock_types broken.lock.0 }
    requires asked { IsGiven basis.now.types request.type_no.0 }
    ensures { (new : List (TypeNo × TypeNo)) (chain : List Instance)
        → older ≡ find (has_type_of basis.now request)
        (reverse (before_first (is_of broken.lock.0) chain))
        → answer_by new result ≡ reported basis.now request chain broken }
{
    let held = basis.type_held(broken);
    let asked = request.type_no;
    if basis.is_found(held, asked) || basis.is_blessed(held, asked) {
        return Verdict::Silent(held, asked);
    }
    let heading = breach(basis, sort_of(basis, asked), asked, held);
    Verdict::Reversal(Conflict {
        heading: heading.unwrap_or(Heading::Order),
        held: place_of(broken),
        older: older.map(|i| place_of(i)),
        asked: place_asked(request),
    })
}
