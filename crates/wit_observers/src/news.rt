//! What a publisher tells to observers.

use crate::rule::Place;
use std::marker::Model;
use wit_adoptions::{Front, Naming};

/// All orders that were published when it was made, for an observer to learn. It may have a place
/// from which to look; without one it is learnt too.
#[derive(Drop)]
pub struct News<J: Naming> {
    pub(crate) front: Front<J>,
    pub(crate) place: Option<Place<J>>,
}

impl<J: Naming> Model for News<J> {
    ghost use Rattle.std.specs.Prelude.{ℕ, ◌<◌, ◌^◌, List, length, IfSome};
    ghost use mathlib.Core.List.{IsPrefix};
    ghost use Rattle.wit_model.specs.declared.calls.Adoption.{Adoption};
    ghost use Rattle.left_right.specs.Sides.{view as told_at};

    ghost Value = { List Adoption };

    ghost view = { λ n. n.front };

    ghost invariant = { λ n. (length n.front < 2 ^ 32)
        × IfSome n.place (λ p. IsPrefix n.front (told_at p.place)) };
}
