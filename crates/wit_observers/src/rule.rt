//! The rule under which observers look, and what a look tells.

use crate::store::{Change, Store};
use atomic_table::{Join, Split};
use crossbeam_utils::rule::{Outcome, Protocol};
use left_right::reader::Reader;
use left_right::writer::Writer;
use std::collections::LinkedList;
use std::marker::PhantomData;
use wit_adoptions::Naming;
use wit_model::Adoption;

/// What was told to who has a place: orders that are shown for good. No value of it is made.
pub type Told = LinkedList<Adoption>;

/// The rule: the cells say the numbers of the orders that are shown, which begin with what each was
/// told.
pub struct Shown<J> {
    named: PhantomData<J>,
}

impl<J: Naming> Protocol<Store, Told> for Shown<J> {
    ghost use Rattle.std.specs.Prelude.{[]};
    ghost use Rattle.wit_observers.specs.Shown.{shape_of, IsShownTo};

    ghost holds = { λ s views. IsShownTo J.list (shape_of s) views };

    ghost first = { [] };
}

/// What a look tells, and a publish: all orders that are shown then.
pub struct Looks<J> {
    named: PhantomData<J>,
}

impl<J: Naming> Outcome<Store, Told> for Looks<J> {
    ghost use Rattle.wit_observers.specs.Shown.{shape_of, Sees};

    ghost then = { λ told before after told_then. Sees J.list told (shape_of after) told_then };
}

/// What was told is told to another.
pub struct Twice;

impl Split<Told> for Twice {
    ghost left = { λ told. told };

    ghost right = { λ told. told };
}

/// Of two that were told, the one who was told more.
pub struct Longer;

impl Join<Told> for Longer {
    ghost use Rattle.std.specs.Prelude.{[]};
    ghost use Rattle.wit_observers.specs.Shown.{longer};

    ghost both = { longer };

    ghost spent = { [] };
}

/// A place from which to look.
pub type Place<J> = Reader<Store, Told, Shown<J>>;

/// Who shows orders.
pub type Showing<J> = Writer<Store, Change, Told, Shown<J>>;
