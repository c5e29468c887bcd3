//! The orders that one request teaches.

ghost use Rattle.std.specs.Prelude.{◌≡◌, [], ◌∷◌, ◌++◌, OnOk, OnErr};

use crate::locks::TypeNo;
use std::alloc::{AllocError, Global};
use std::marker::Model;

/// Orders that one request teaches: pairs of types, that of a held lock and the requested one, the
/// one that is learnt first at the front.
#[derive(Debug, Drop)]
pub struct NewOrders {
    pairs: Vec<(TypeNo, TypeNo)>,
}

impl Model for NewOrders {
    ghost use Rattle.std.specs.Prelude.{List};
    ghost use Rattle.wit_model.specs.declared.locks.TypeNo.{TypeNo};

    ghost Value = { List (TypeNo × TypeNo) };

    ghost view = { λ l. l.pairs.items };
}

impl NewOrders {
    /// No orders. It takes no memory.
    pub fn new(alloc: Global) -> NewOrders
        ensures { result ≡ [] }
    {
        NewOrders {
            pairs: Vec::new(alloc),
        }
    }

    /// Adds an order that is learnt behind the others.
    ///
    /// # Errors
    /// Want of memory alone. The orders are unchanged then.
    pub fn push(&mut self, parent: TypeNo, child: TypeNo) -> Result<(), AllocError>
        ensures ok { OnOk result (self.new ≡ self.old ++ (parent, child) ∷ []) }
        ensures err { OnErr result (self.new ≡ self.old) }
    {
        self.pairs.push((parent, child))?;
        Ok(())
    }

    /// The orders, in the order in which they are learnt.
    pub fn pairs(&self) -> &[(TypeNo, TypeNo)]
        ensures { result.now ≡ self.now }
    {
        &self.pairs
    }
}
