//! Names for facts of one program's verifier, which types carry.

ghost use Rattle.std.specs.Prelude.{ℕ, List, []};
ghost use Rattle.atomic_table.specs.Seated.{TableId};
ghost use Rattle.wit_model.specs.declared.locks.FileNo.{FileNo};
ghost use Rattle.wit_model.specs.Rules.State.{Start, Story};
ghost use Rattle.wit_seats.specs.Nothing.{no_table, no_start, no_story};

use std::marker::Brand;
use wit_adoptions::Naming;

/// A verifier that threads share: which one it is, how it began, and which list its adopted orders
/// are in. Its seats and observers name it by their type.
pub trait Room: Naming {
    // What no other log's table shares with its own.
    ghost table: { TableId };

    // How its verifier began.
    ghost start: { Start };
}

impl Room for Brand {
    ghost table = { no_table };

    ghost start = { no_start };
}

/// A step of a verifier: what it left, and the files that its seat was given by it.
pub trait VerifierStep {
    // The verifier after it.
    ghost after: { Story };

    // The files given, with their numbers.
    ghost given: { List (FileNo × List ℕ) };
}

impl VerifierStep for Brand {
    ghost after = { no_story };

    ghost given = { [] };
}
