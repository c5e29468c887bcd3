//! What a call that defines an order teaches.

ghost use Rattle.std.specs.Prelude.{◌≡◌};
ghost use Rattle.wit_known.specs.Defining.{with_defined};
ghost use Rattle.wit_known.specs.Known.{IsApt, IsRoomFor};

use crate::known::Known;
use wit_model::{Adoption, Origin, Reply};

impl Known {
    /// Adopts the order that a reply to its definition tells, where it tells one. It takes no
    /// memory.
    pub fn define(&mut self, reply: &Reply)
        requires apt { IsApt self.old.most_types self.old.known reply.now }
        requires room { IsRoomFor reply.now self.old.spare }
        ensures { self.new ≡ record self.old {
          known = with_defined self.old.known reply.now;
          spare = self.new.spare;
        } }
    {
        if let Reply::Adopted(parent, child) = reply {
            self.orders.adopt(Adoption {
                parent: *parent,
                child: *child,
                origin: Origin::Defined,
            });
        }
    }
}
