//! Laws of what is told of an input. Each function is a theorem, and does nothing.

ghost use Rattle.wit_against.specs.Laws.{HasNoCircle, OneOrderIsMet, RunsWithinNeverDeadlock};
ghost use Rattle.wit_against.specs.Laws.{ThreadsWithinNeverDeadlock};

/// Where nothing is told of an input, its orders lead no type round to itself.
pub fn law_nothing_against_has_no_circle()
    ensures { HasNoCircle }
{}

/// And threads that ask for nothing but these orders never reach a circle of threads that wait for one
/// another's locks, whatever order they go in. Nor do threads of several runs together, where that is
/// so of each of the runs. There are such orders and such threads.
pub fn law_nothing_against_never_deadlock()
    ensures threads { ThreadsWithinNeverDeadlock }
    ensures runs { RunsWithinNeverDeadlock }
    ensures met { OneOrderIsMet }
{}
