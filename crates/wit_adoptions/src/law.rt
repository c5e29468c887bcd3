//! The rule of a book of adopted orders, and the steps under it.

use crate::link::ListLink;
use logbook::{Gain, Pen, Plain, Play, Rule};
use wit_model::Adoption;

/// The rule: behind an end is added once, by whoever has its pen.
pub struct Law;

impl Rule<ListLink, u64> for Law {
    ghost use Rattle.std.specs.Prelude.{[]};
    ghost use base.Fml.{ftrue};
    ghost use Rattle.wit_adoptions.specs.Links.{IsKept};

    ghost holds = { λ cells links. IsKept cells links };

    ghost first = { [] };

    ghost hinted = { λ n links. Unit {0} };

    ghost shows = { λ links. [] };

    ghost keeps = { λ names links. ftrue };

    ghost moves = { λ ask before after answer. Unit {0} };
}

/// Steps trade nothing.
pub struct Nothing;

impl Gain<ListLink, u64> for Nothing {
    ghost use base.Fml.{ftrue};

    ghost after = { λ names about answer. ftrue };
}

/// Makes an end.
pub struct Ending;

impl Play<ListLink, u64> for Ending {
    ghost use Rattle.wit_adoptions.specs.Steps.{Ends};

    ghost then = { Ends };
}

/// Adds behind the pen's end.
pub struct Adding;

impl Play<ListLink, u64> for Adding {
    ghost use Rattle.wit_adoptions.specs.Steps.{Adds};

    ghost then = { Adds };
}

/// Looks whether anything was added behind the pen's end.
pub struct Covering;

impl Play<ListLink, u64> for Covering {
    ghost use Rattle.wit_adoptions.specs.Steps.{Covers};

    ghost then = { Covers };
}

/// What is to be added behind the end of one pen, with that of the other as the new end.
#[derive(Clone, Copy)]
pub struct Growth<'a> {
    pub end: &'a Pen,
    pub next: &'a Pen,
    pub orders: &'a [Adoption],
}

/// What a step asks for: the link.
impl<'a> Plain<Growth<'a>, ListLink, u64> for Adding {
    ghost use Rattle.std.specs.Prelude.{None};
    ghost use Rattle.wit_adoptions.specs.Links.{link};

    ghost ask = { λ g. link g.end.now.nib.key g.next.now.nib.key g.orders.now };

    ghost state = { λ g. None };
}

/// A step that adds nothing asks for nothing.
impl Plain<(), ListLink, u64> for Covering {
    ghost use Rattle.std.specs.Prelude.{None, []};
    ghost use Rattle.wit_adoptions.specs.Links.{link};

    ghost ask = { λ _. link 0 0 [] };

    ghost state = { λ _. None };
}
