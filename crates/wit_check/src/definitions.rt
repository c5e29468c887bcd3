//! An order that is defined by a call, without an acquisition.

ghost use Rattle.std.specs.Prelude.{◌≡◌, ◌≤◌, length};
ghost use Rattle.wit_model.specs.Rules.Numbers.{IsGiven};
ghost use Rattle.wit_model.specs.Rules.Defining.{are_of_two_kinds, defining};
ghost use Rattle.wit_check.specs.Answers.{definition_of, IsDefinition};

use crate::answers::Verdict;
use wit_matrix::Matrix;
use wit_model::{Fault, TypeNo};
use wit_table::Table;

/// The answer to the defining of an order, the first type before the second (`witness_defineorder`
/// of subr_witness.c): `Pass` where the order was adopted before, `Adopt` where it is to be adopted
/// now, or a fault: in this order `KindMismatch` where one type is of the spin kind and one of the
/// sleep kind, `SameType` where both are one, and `WrongOrder` where the second is before the
/// first.
///
/// The types are the table's, and the matrix has room for all of them. It takes no memory and
/// changes nothing.
pub fn define(types: &Table, matrix: &Matrix, first: TypeNo, second: TypeNo) -> Verdict
    requires first { IsGiven types.now.types first.0 }
    requires second { IsGiven types.now.types second.0 }
    requires sized { length types.now.types ≤ matrix.now.size }
    ensures answer { definition_of result
        ≡ defining types.now.types matrix.now.orders first second }
    ensures form { IsDefinition result }
{
    if are_of_two_kinds(types, first, second) {
        return Verdict::Fault(Fault::KindMismatch);
    }
    if first.0 == second.0 {
        return Verdict::Fault(Fault::SameType);
    }
    if matrix.before(second, first) {
        return Verdict::Fault(Fault::WrongOrder);
    }
    if matrix.direct(first, second) {
        return Verdict::Pass;
    }
    Verdict::Adopt(first, second)
}

// Whether one type is of the spin kind and the other isn't.
fn are_of_two_kinds(types: &Table, first: TypeNo, second: TypeNo) -> bool
    requires first { IsGiven types.now.types first.0 }
    requires second { IsGiven types.now.types second.0 }
    ensures { result ≡ are_of_two_kinds types.now.types first second }
{
    types.class_of(first).is_spin() != types.class_of(second).is_spin()
}
