//! Laws of errands: which reorderings of a run there are, and where one of them hangs. Each function
//! is a theorem, and does nothing.

ghost use Rattle.wit_errands.specs.Examples.{
  BarredHasNone,
  BarredReverses,
  GatedHasNone,
  GatedReverses,
  InTurnReverses,
};
ghost use Rattle.wit_errands.specs.Laws.{
  ErrandsDecide,
  GatedRunsNeverHang,
  GatesKeepApart,
  HangingCopiesMeet,
  HangingErrandsMeet,
  HangingThreadsAsk,
  LocksDecide,
  MeetingErrandsHang,
  ReversalsHang,
};

/// Whether the deeds of threads can come in another sequence is decided by the locks alone: no
/// thread is answered otherwise for it, but that a check may teach or break another order. So who
/// looks for a reordering needs to look at the locks, and not at what the verifier knows.
pub fn law_locks_decide()
    ensures { LocksDecide }
{}

/// A reversal hangs: of two threads each asks for a lock that the other has at its own request, and
/// no step that leads the one there needs what the other has then. So a reordering of the run
/// reaches a deadlock of these two.
pub fn law_reversal_hangs()
    ensures { ReversalsHang }
{}

/// Errands that can be gone together hang: threads ask for what the next one has, in a round, and
/// there is a sequence of their ways that the locks admit, where nobody has anything before. So a
/// reordering of the run reaches a deadlock of these threads, however far apart they did all of it.
pub fn law_meeting_errands_hang()
    ensures { MeetingErrandsHang }
{}

/// And only such errands do. Threads that a reordering leads to a deadlock are at the ends of errands,
/// where nobody gets a lock in the first part. And in whatever errands led there, each asks for what
/// the next one has, and they can be gone together.
pub fn law_hanging_errands_meet()
    ensures ask { HangingThreadsAsk }
    ensures meet { HangingErrandsMeet }
{}

/// Together: a reordering of a run hangs exactly where threads have errands that ask in a round and
/// can be gone together, where the run is settled and nobody gets a lock in its first part, as where
/// the locks are made in it. So to know which threads can hang it is enough to look at the errands
/// of the run, few at a time, and at nothing else.
pub fn law_errands_decide()
    ensures { ErrandsDecide }
{}

/// However many threads there are, and in whatever world: where each thread of a deadlock did, since
/// it had nothing, what an errand of this run was, copies of these errands ask in a round and can be
/// gone together. So where no copies of the run's errands do, no number of threads hangs that do
/// nothing else. A copy may be of the thread's own errand, and two threads may copy the same one.
pub fn law_hanging_copies_meet()
    ensures { HangingCopiesMeet }
{}

/// A gate keeps a reversal from hanging: two threads that have one lock at their requests, and not
/// both as readers, are never both at these requests, whatever order they go in.
pub fn law_gates_keep_apart()
    ensures { GatesKeepApart }
{}

/// A run hangs in no sequence in which whoever asks for a lock while it has one has a gate too.
pub fn law_gated_runs()
    ensures { GatedRunsNeverHang }
{}

/// Such a run may have a report: here each of two threads asks for what the other one has at its
/// request, a reversal is reported, and no reordering hangs. So a report alone doesn't say that
/// threads can hang.
pub fn law_gated_reversal()
    ensures report { GatedReverses }
    ensures none { GatedHasNone }
{}

/// Nor does it where there is no gate: here each thread needs on its way what the other one has at its
/// request, and gets it by a try. So the two are never both there, and no reordering hangs.
pub fn law_barred_reversal()
    ensures report { BarredReverses }
    ensures none { BarredHasNone }
{}

/// The law of reversals isn't empty: a run of two threads, the one after the other, meets its
/// premises. It is the run of `law_circle_reached` of `wit_model`, which shows the reordering.
pub fn law_reversal_found()
    ensures { InTurnReverses }
{}
