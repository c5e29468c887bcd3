//! A beginning of a list, under no name.

ghost use Rattle.std.specs.Prelude.{◌≡◌};

use crate::law::Law;
use crate::link::ListLink;
use logbook::Seen;
use std::marker::Model;

/// A [`Front`](crate::Front) whose type doesn't say of which list it is, for types that have no
/// such parameter. Contracts see it as a sheet, `IsOf` says that the sheet is of a list, and
/// `listed` which orders of it.
#[derive(Drop)]
pub struct Page {
    pub(crate) count: u64,
    pub(crate) seen: Seen<ListLink, u64, Law>,
}

impl Model for Page {
    ghost use Rattle.wit_adoptions.specs.Naming.{Sheet, sheet};

    ghost Value = { Sheet };

    ghost view = { λ p. sheet p.seen.book p.seen.log p.count };

    ghost invariant = { λ p. Unit {0} };
}

impl Page {
    /// How many orders it has.
    pub fn len(&self) -> u64
        ensures { result ≡ self.now.count }
    {
        self.count
    }

    /// A copy.
    pub fn again(&self) -> Page
        ensures { result ≡ self.now }
    {
        Page {
            count: self.count,
            seen: self.seen.again(),
        }
    }
}
