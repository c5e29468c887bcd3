//! A list that is added to, and beginnings of it.

use std::cmp::Ordering;
use std::test::Fail;
use wit_adoptions::{Front, ListKeeper, Naming, Program, keep};
use wit_model::{Adoption, Origin, TypeNo};

fn order(parent: u16, child: u16) -> Adoption {
    Adoption {
        parent: TypeNo(parent),
        child: TypeNo(child),
        origin: Origin::Listed,
    }
}

/// Adds to a list that isn't long.
fn grow<J: Naming>(keeper: &mut ListKeeper<J>, orders: &[Adoption]) {
    if keeper.len() < 1000 && orders.len() < 1000 {
        keeper.add(orders);
    }
}

fn is(fact: bool, otherwise: &'static str) -> Result<(), Fail> {
    if fact { Ok(()) } else { Err(otherwise)? }
}

/// Each call once.
#[derive(Clone, Copy)]
struct Calls;

impl Program for Calls {
    type Out = Result<(), Fail>;

    ghost done = { λ program out. Unit {0} };

    fn run<J: Naming + Send + Sync>(self, mut keeper: ListKeeper<J>) -> Result<(), Fail> {
        let none = keeper.front();
        grow(&mut keeper, &[order(1, 2), order(2, 3)]);
        let two = keeper.front();
        grow(&mut keeper, &[]);
        grow(&mut keeper, &[order(3, 4)]);
        let three = Front::of(keeper.front().page().again());
        keeper.covers(&two);
        is(keeper.len() == 3, "three orders")?;
        is(none.len() == 0 && two.len() == 2, "two of them at first")?;
        is(three.page().len() == 3, "three on the page")?;
        is(none.compare(&two) == Ordering::Less, "shorter")?;
        is(
            three.compare(&keeper.front()) == Ordering::Equal,
            "the same",
        )?;
        is(three.again().compare(&two) == Ordering::Greater, "longer")
    }
}

#[test]
fn each_call() -> Result<(), Fail> {
    keep(Calls)
}
