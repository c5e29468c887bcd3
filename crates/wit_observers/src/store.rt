//! What observers are shown, of which there are two copies, and what changes it.

ghost use Rattle.std.specs.Prelude.{◌≡◌, ◌+◌, ◌*◌, ◌<◌, ◌^◌, length};
ghost use Rattle.wit_observers.specs.Numbers.{number_at};

use crate::cells::{number_at, put_all};
use crate::tail::Tail;
use left_right::Absorb;
use std::alloc::AllocError;
use wit_adoptions::Page;
use wit_model::{Adoption, TypeNo};

/// One copy of what observers are shown.
#[derive(Drop)]
pub struct Store {
    pub page: Page,
    pub tail: Tail,
    pub size: u16,
    pub cells: Vec<u32>,
    ghost square: { length cells.items ≡ size * size },
}

/// What is added to both copies.
#[derive(Drop)]
pub struct Change {
    /// The orders before these.
    pub page: Page,
    /// How many they are.
    pub before: u32,
    pub orders: Vec<Adoption>,
    ghost room: { before + length orders.items < 2 ^ 32 },
}

/// What the copies have in common. No value of it is made; contracts read the arrays as lists.
pub struct Shape {
    pub page: Page,
    pub tail: [Adoption; 0],
    pub size: u16,
    pub cells: [u32; 0],
}

impl Store {
    /// The number of an order among those that are shown, 0 where it isn't one.
    pub fn number(&self, parent: TypeNo, child: TypeNo) -> u32
        ensures { result ≡ number_at self.now.size self.now.cells.items parent.0 child.0 }
    {
        number_at(self.size, &self.cells, parent, child)
    }
}

impl Absorb<Change> for Store {
    type State = Shape;

    ghost use Rattle.wit_observers.specs.Shown.{shape_of, with_change};

    ghost state = { shape_of };

    ghost applied = { with_change };

    ghost never_fails = { Unit {0} };

    fn absorb_first(&mut self, change: &Change, _other: &Store) -> Result<(), AllocError> {
        put_all(self.size, &mut self.cells, change.before, &change.orders);
        self.page = change.page.again();
        self.tail = Tail::of(&change.orders);
        Ok(())
    }
}
