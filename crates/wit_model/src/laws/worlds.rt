//! Laws of worlds: of threads that take and free locks and tell the verifier of it. Each function
//! is a theorem, and does nothing.

ghost use Rattle.wit_model.specs.declared.profiles.Profile.TheVariants.{Plain, AllHeld};
ghost use Rattle.wit_model.specs.WorldLaws.{
  CleanRunsNeverDeadlock,
  InTurnIsWorld,
  InTurnHasNone,
  CrossedReorders,
  CrossedDeadlocks,
  DefinedIsWorld,
  DefinedBeforeReorders,
  AgreedIsWorld,
  AgreedIsClean,
  TriedIsWorld,
  TriedIsClean,
  TriedInTurnIsWorld,
  TriedCrossedReorders,
  TriedCrossedDeadlocks,
  VariedIsWorld,
  ExhaustedIsWorld,
  ExclusiveIsAlone,
  TriesAreNotedAsHad,
  OnlySharedIsRaised,
  WaitersAreBarred,
  BarredOnesWait,
  DeadlocksTakeTwo,
  MomentsReorder,
  WorldsAreLegal,
  OwnDeedsAreLogged,
  CleanRecordsHaveNoCircle,
};

/// Where a run is clean, no reordering of its threads' steps reaches a circle of threads that wait
/// for one another's locks. It is clean where nothing was reported or tried, everything was
/// watched, each check might teach its order, and nothing is excepted: no second lock of a type was
/// allowed, no lock is Giant, no pair is blessed. That is why witness(4) verifies "that a lock is
/// not being acquired in the wrong order": a deadlock shows in the orders before it happens, in
/// runs in which the locks were taken one after the other.
pub fn law_no_circle()
    ensures { CleanRunsNeverDeadlock Plain }
{}

/// No reordering of a clean run reaches a circle where requests are compared with all held locks,
/// though locks are acquired by a try: the orders after such a lock are learnt as those after any
/// other, whatever is held beside it.
pub fn law_no_circle_all_held()
    ensures { CleanRunsNeverDeadlock AllHeld }
{}

/// That law isn't empty: a world without a deadlock has a reordering with one.
pub fn law_circle_reached()
    ensures run { InTurnIsWorld }
    ensures none { InTurnHasNone }
    ensures reordering { CrossedReorders }
    ensures circle { CrossedDeadlocks }
{}

/// In a reordering a check may be answered otherwise than in the run, as in that world, and so may
/// the defining of an order: it depends on what others did before.
pub fn law_replies_differ()
    ensures run { DefinedIsWorld }
    ensures reordering { DefinedBeforeReorders }
{}

/// Nor has it a premise that no run meets: here is a world whose log is clean.
pub fn law_clean_run()
    ensures run { AgreedIsWorld }
    ensures clean { AgreedIsClean }
{}

/// Nor is it empty where requests are compared with all held locks: here is a world with a try
/// whose log is clean.
pub fn law_clean_run_all_held()
    ensures run { TriedIsWorld }
    ensures clean { TriedIsClean }
{}

/// And there a world with a report has a reordering with a deadlock. The report is of the order
/// behind a lock that wasn't the last one held, since another one was acquired by a try after it.
pub fn law_circle_reached_all_held()
    ensures run { TriedInTurnIsWorld }
    ensures reordering { TriedCrossedReorders }
    ensures circle { TriedCrossedDeadlocks }
{}

/// Every sequence of steps can be done, and every call made, while another thread does its own:
/// here is a world of two threads with each of them, where the one does something between any two
/// deeds of the other. Locks are taken shared and exclusively, recursed, turned both ways, tried,
/// given up, marked and destroyed; an order is defined, and less is watched for a while, and then
/// nothing: calls are passed over, before a lock is freed or turned and where it isn't. They go on
/// where the chunks run out.
pub fn law_sequences_run()
    ensures all { VariedIsWorld }
    ensures exhausted { ExhaustedIsWorld }
{}

/// In every world who has a lock exclusively has it alone, as a mutex of mutex(9), and a writer of
/// rwlock(9) or sx(9).
pub fn law_exclusive_alone()
    ensures { ExclusiveIsAlone }
{}

/// Of how a thread has a lock the world tells no lie: who tells of a try has the lock in that mode,
/// and who turns a lock exclusive had it shared, and once.
pub fn law_modes_are_had()
    ensures noted { TriesAreNotedAsHad }
    ensures raised { OnlySharedIsRaised }
{}

/// To wait is to be barred from a lock by another thread's share of it: who waits can't have the
/// lock as things stand, and who can't have a lock that it asked for, and of which it has no share
/// itself, waits for another. So a deadlock is of two threads at least.
pub fn law_waiting_is_barred()
    ensures barred { WaitersAreBarred }
    ensures waits { BarredOnesWait }
    ensures two { DeadlocksTakeTwo }
{}

/// A run is a reordering of itself, and so is each of its moments.
pub fn law_run_reorders_itself()
    ensures { MomentsReorder }
{}

/// The log of a world is a legal history, of which each thread's entries are those of its own
/// steps.
pub fn law_world_is_legal()
    ensures legal { WorldsAreLegal }
    ensures own { OwnDeedsAreLogged }
{}

/// A clean log leaves no circle of the record, whatever threads do: what a seat holds while it asks
/// for a lock is to be taken before that lock.
pub fn law_no_record_circle()
    ensures { CleanRecordsHaveNoCircle }
{}
