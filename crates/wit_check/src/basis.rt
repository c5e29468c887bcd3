//! What a verdict rests on.

ghost use Rattle.std.specs.Prelude.{◌≡◌};
ghost use Rattle.wit_model.specs.Rules.Numbers.{IsGiven};
ghost use Rattle.wit_model.specs.Rules.Types.{class_of};
ghost use Rattle.wit_model.specs.Rules.Orders.{is_direct, is_before, is_found};
ghost use Rattle.wit_model.specs.Rules.Verdict.{type_held, is_sleepable, is_giant, is_blessed};

use std::marker::Model;
use wit_held::LockTypes;
use wit_matrix::Matrix;
use wit_model::{Class, Instance, TypeNo};
use wit_table::Table;

/// What is known of types and locks.
#[derive(Drop)]
pub struct Basis<'a> {
    /// The types, with their classes and the blessed pairs.
    pub types: &'a Table,
    /// How the types stand to one another; it has room for all of them.
    pub matrix: &'a Matrix,
    /// The type of each lock, by the lock's number from 1.
    pub lock_types: &'a [TypeNo],
}

impl<'a> Model for Basis<'a> {
    ghost use Rattle.wit_model.specs.Rules.Verdict as model;

    ghost Value = { model.Basis };

    ghost use Rattle.wit_check.specs.Bases.{basis_in, IsBasis};

    ghost view = { basis_in };

    ghost invariant = { IsBasis };
}

impl<'a> Basis<'a> {
    /// The type of a held lock.
    pub fn type_held(&self, held: Instance) -> TypeNo
        requires { IsGiven self.now.lock_types held.lock.0 }
        ensures value { result ≡ type_held self.now held }
        ensures given { IsGiven self.now.types result.0 }
    {
        self.lock_types[held.lock.0 as usize - 1]
    }

    /// The class of a type.
    pub fn class_of(&self, number: TypeNo) -> Class
        requires { IsGiven self.now.types number.0 }
        ensures { result ≡ class_of number.0 self.now.types }
    {
        self.types.class_of(number)
    }

    /// Whether a holder of its locks may sleep: sx locks alone (sx(9)).
    pub fn is_sleepable(&self, number: TypeNo) -> bool
        requires { IsGiven self.now.types number.0 }
        ensures { result ≡ is_sleepable self.now number }
    {
        self.class_of(number) == Class::Sx
    }

    /// Whether it is Giant: the mutex of that name alone (locking(9)).
    pub fn is_giant(&self, number: TypeNo) -> bool
        requires { IsGiven self.now.types number.0 }
        ensures { result ≡ is_giant self.now number }
    {
        self.class_of(number) == Class::SleepMutex && self.types.name_of(number) == "Giant"
    }

    /// Whether the order from a to b was adopted.
    pub fn is_direct(&self, a: TypeNo, b: TypeNo) -> bool
        requires a { IsGiven self.now.types a.0 }
        requires b { IsGiven self.now.types b.0 }
        ensures { result ≡ is_direct self.now.orders a.0 b.0 }
    {
        self.matrix.direct(a, b)
    }

    /// Whether a path of adopted orders leads from a to b.
    pub fn is_before(&self, a: TypeNo, b: TypeNo) -> bool
        requires a { IsGiven self.now.types a.0 }
        requires b { IsGiven self.now.types b.0 }
        ensures { result ≡ is_before self.now.orders a.0 b.0 }
    {
        self.matrix.before(a, b)
    }

    /// Whether the unordered pair of a and b was found in violation.
    pub fn is_found(&self, a: TypeNo, b: TypeNo) -> bool
        requires a { IsGiven self.now.types a.0 }
        requires b { IsGiven self.now.types b.0 }
        ensures { result ≡ is_found self.now.found a.0 b.0 }
    {
        self.matrix.reversed(a, b)
    }

    /// Whether the types may be taken in either order.
    pub fn is_blessed(&self, a: TypeNo, b: TypeNo) -> bool
        requires a { IsGiven self.now.types a.0 }
        requires b { IsGiven self.now.types b.0 }
        ensures { result ≡ is_blessed self.now a b }
    {
        self.types
            .blessed(self.types.name_of(a), self.types.name_of(b))
    }
}

impl<'a> LockTypes for Basis<'a> {
    ghost basis = { λ s. s };

    fn type_is_giant(&self, held: Instance) -> bool {
        self.is_giant(self.type_held(held))
    }

    fn type_is_sleepable(&self, held: Instance) -> bool {
        self.is_sleepable(self.type_held(held))
    }
}
