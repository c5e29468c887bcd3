//! Which orders a request breaks, and which it teaches.

ghost use Rattle.std.specs.Prelude.{◌≡◌, List, [], ◌∷◌, Ok};
ghost use Rattle.wit_model.specs.declared.locks.TypeNo.{TypeNo};
ghost use Rattle.wit_model.specs.declared.calls.Reply.TheVariants.{Adopted};
ghost use Rattle.wit_model.specs.Rules.Numbers.{IsGiven};
ghost use Rattle.wit_model.specs.Rules.Verdict.{breach, type_held, is_learnt, when, decided};
ghost use Rattle.wit_check.specs.Answers.{answer_by};
ghost use Rattle.wit_check.specs.Looks.{sort_of};

use crate::answers::Verdict;
use crate::basis::Basis;
use bitflags::Flags;
use wit_model::{Heading, Instance, OpFlags, TypeNo, TypedRequest};

/// What rules a type has beside the known orders.
#[derive(Clone, Copy)]
pub enum Sort {
    /// None.
    Ordinary,
    /// A holder of its locks may sleep.
    Sleepable,
    /// It is Giant.
    Giant,
}

/// Which rules a type has beside the known orders.
pub fn sort_of(basis: &Basis, number: TypeNo) -> Sort
    requires { IsGiven basis.now.types number.0 }
    ensures { result ≡ sort_of basis.now number }
{
    if basis.is_sleepable(number) {
        Sort::Sleepable
    } else if basis.is_giant(number) {
        Sort::Giant
    } else {
        Sort::Ordinary
    }
}

/// Which order a held lock's type breaks where a lock of this sort and type is asked for.
pub fn breach(basis: &Basis, sort: Sort, asked: TypeNo, held: TypeNo) -> Option<Heading>
    requires sort { sort ≡ sort_of basis.now asked }
    requires asked { IsGiven basis.now.types asked.0 }
    requires held { IsGiven basis.now.types held.0 }
    ensures { result ≡ breach basis.now asked held }
{
    match sort {
        Sort::Sleepable if basis.is_giant(held) => None,
        Sort::Sleepable if !basis.is_sleepable(held) => Some(Heading::Sleepable),
        Sort::Giant if basis.is_sleepable(held) => None,
        Sort::Giant => Some(Heading::Giant),
        _ if basis.is_before(asked, held) => Some(Heading::Order),
        _ => None,
    }
}

/// Whether the order behind a held lock may be learnt: where the request allows it, unless it is
/// that of a sleepable lock behind Giant, or turns an order round.
pub fn is_learnt(basis: &Basis, request: TypedRequest, held: Instance) -> bool
    requires held { IsGiven basis.now.lock_types held.lock.0 }
    requires asked { IsGiven basis.now.types request.type_no.0 }
    ensures { result ≡ is_learnt basis.now request held }
{
    let parent = basis.type_held(held);
    let asked = request.type_no;
    if !request.ops.contains(OpFlags::NEWORDER) {
        return false;
    }
    if basis.is_giant(parent) && basis.is_sleepable(asked) {
        return false;
    }
    !basis.is_before(asked, parent)
}

/// The verdict where no order is broken: the one behind the last held lock is learnt, where it may
/// be.
pub fn learnt(basis: &Basis, request: TypedRequest, last: Instance) -> Verdict
    requires last { IsGiven basis.now.lock_types last.lock.0 }
    requires asked { IsGiven basis.now.types request.type_no.0 }
    ensures { (new : List (TypeNo × TypeNo))
        → answer_by new result ≡ decided (when (is_learnt basis.now request last)
        (Ok (Adopted (type_held basis.now last) request.type_no)) ∷ []) }
{
    if is_learnt(basis, request, last) {
        Verdict::Adopt(basis.type_held(last), request.type_no)
    } else {
        Verdict::Pass
    }
}
