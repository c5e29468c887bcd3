//! The way in for a program.

ghost use Rattle.std.specs.Prelude.{◌≡◌, []};

use crate::keeper::{ListKeeper, OpenedList};
use crate::naming::Naming;
use std::marker::Brand;

/// What a program does with a list, whatever name the list has. It needs no proof of its own that
/// its types belong to one list.
pub trait Program {
    ghost use Rattle.std.specs.Prelude.{◌≡◌, []};

    /// What the program answers.
    type Out;

    ghost done: { Self → Self.Out → Type 0 };

    /// Runs the program on a list with no orders.
    fn run<J: Naming + Send + Sync>(self, keeper: ListKeeper<J>) -> Self::Out
        requires { keeper ≡ [] }
        ensures { done self result };
}

/// Runs a program on a new list, which has a name of its own.
pub fn keep<S: Program>(program: S) -> S::Out
    ensures { S.done program result }
{
    keep_as::<Brand, S>(OpenedList::new(), program)
}

fn keep_as<J: Naming + Send + Sync, S: Program>(opened: OpenedList, program: S) -> S::Out
    requires { opened ≡ J.list }
    ensures { S.done program result }
{
    program.run::<J>(opened.named::<J>())
}
