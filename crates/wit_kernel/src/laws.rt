//! Laws of what is told. Each function is a theorem, and does nothing.

ghost use Rattle.wit_kernel.specs.Example.{RequestIsTold};
ghost use Rattle.wit_kernel.specs.Laws.{KeptPairsAreTold};

/// Each pair that is kept is told: the trace has a request for the one type by a thread that holds the
/// other, where it has room for the types, somebody ever held the one that is asked for, and at most
/// 4,096 locks are held. So it is where a task asks for a B under an A.
pub fn law_no_pair_is_lost()
    ensures told { KeptPairsAreTold }
    ensures met { RequestIsTold }
{}
