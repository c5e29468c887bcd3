//! Orders that only clauses read.

ghost use Rattle.std.specs.Prelude.{◌≡◌, List};
ghost use base.Fml.{ftrue};
ghost use Rattle.wit_model.specs.declared.calls.Adoption.{Adoption};
ghost use Rattle.wit_observers.specs.Tails.{orders_coded};

use std::marker::Model;
use wit_model::Adoption;

/// The orders that are shown and that a page doesn't have yet. It has no bytes.
#[derive(Drop)]
pub struct Tail {
    pub ghost orders: { List Adoption } by { orders_coded },
}

impl Model for Tail {
    ghost also_owns = { λ _. ftrue };
}

// What owns nothing may go to any thread.
unsafe impl Send for Tail {}

unsafe impl Sync for Tail {}

impl Tail {
    /// These orders.
    pub fn of(_orders: &Vec<Adoption>) -> Tail
        ensures { result.orders ≡ _orders.now.items }
    {
        Tail {}
    }
}
