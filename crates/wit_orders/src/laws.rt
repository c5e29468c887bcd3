//! Laws of the answers: what it says of pairs that each goes forward in one sequence. Each function
//! is a theorem, and does nothing.

ghost use Rattle.wit_orders.specs.Laws.{AcyclicIsMet, AcyclicLeadsRoundToNone, AcyclicReadsAll};
ghost use Rattle.wit_orders.specs.Laws.{HistoriesAreClean, HistoriesLeadRoundToNone};
ghost use Rattle.wit_orders.specs.Laws.{RunsWithinNeverDeadlock, ThreadsWithinNeverDeadlock};
ghost use Rattle.wit_orders.specs.Spelling.{ReadsSpellings};

/// A line is read as the type or the pair that it spells, and spells nothing else.
pub fn law_order_lines_are_spelled()
    ensures { ReadsSpellings }
{}

/// Where the answer is that each pair goes forward, the pairs lead no type round to itself. Nothing
/// of the input was passed over then. Which sequence it is doesn't matter.
pub fn law_acyclic_has_no_circle()
    ensures none { AcyclicLeadsRoundToNone }
    ensures all { AcyclicReadsAll }
{}

/// So a history that tells of nothing but these pairs leads no type round to itself: what
/// `law_pairs_decide` of `wit_recordings` asks for. Then it is clean, where the report of a request
/// is all that could keep it from being so.
pub fn law_acyclic_histories()
    ensures none { HistoriesLeadRoundToNone }
    ensures clean { HistoriesAreClean }
{}

/// And threads that ask for nothing but these pairs never reach a circle of threads that wait for
/// one another's locks, whatever order they go in: where a thread asks for a lock, the pair of the
/// type of each lock that it has then and of that one is among these. Nor do threads of several runs
/// together, where that is so of each of the runs. There are such certificates and such threads.
pub fn law_acyclic_never_deadlock()
    ensures threads { ThreadsWithinNeverDeadlock }
    ensures runs { RunsWithinNeverDeadlock }
    ensures met { AcyclicIsMet }
{}
