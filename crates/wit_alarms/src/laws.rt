//! Laws of alarms: what the grade of facts says of threads. Each function is a theorem, and does
//! nothing.

ghost use Rattle.wit_alarms.specs.Chosen.{ChosenFactsAreEnough};
ghost use Rattle.wit_alarms.specs.Examples.{AgreedKeeps, CrossedDeadlocks};
ghost use Rattle.wit_alarms.specs.NoneMeansNone.{NeverMeansNever, NoneMeansNone};
ghost use Rattle.wit_alarms.specs.Reasoned.{
  AloneAtFirst,
  AloneByGate,
  AloneByJoin,
  AloneByLimit,
  AloneByMaking,
  AloneByReaders,
  AloneByThread,
  AloneByWait,
  AloneByWaits,
};
ghost use Rattle.wit_alarms.specs.SameMeansSo.{OneOrderIsNone, SameMeansSo};

/// Threads that ask for locks only as facts say, none of whose circles closes, never wait for one
/// another in a circle for these locks, whatever order they go in. So where the grade of the facts
/// is `Never`, neither the run that gave them has such a circle, nor a reordering of it that keeps
/// to them, nor any other course that does. The locks may be those of some types: then only the
/// facts between such locks are asked for.
///
/// A fact is kept to where a thread asks for its lock while it has the held one, in these modes, and
/// the locks besides. Where the fact says so, it took the held lock under the one that it asks for;
/// and where it asks as a wait for a condition ends, it freed that lock last. It had joined whom it
/// had joined when it did so first, and hadn't made whom it made after it did so last. A request by
/// a fact with a time limit has one, and who has one doesn't wait for good.
pub fn law_none_means_none()
    ensures none { NoneMeansNone }
    ensures never { NeverMeansNever }
{}

/// The facts of a circle that closes are among those that were read. Each one's thread waits for the
/// next one's, and the last for the first. They are by different threads, which can be there at one
/// time, and no two have a lock in common but as readers: so the locks admit that each thread holds
/// what its fact says, while it asks as it says.
pub fn law_same_means_so()
    ensures same { SameMeansSo }
{}

/// Where the locks have an order in which each fact goes forward, there is no circle of single
/// locks: as of a list whose locks are taken hand over hand, however long it is.
pub fn law_one_order()
    ensures none { OneOrderIsNone }
{}

/// Who asks for all locks only as the facts say asks for some of them, as those of some types, only
/// as the facts say of which both locks are of these. So the others needn't be looked at.
pub fn law_chosen_facts()
    ensures enough { ChosenFactsAreEnough }
{}

/// Such courses are there. Two threads that take two locks in one order keep to two facts, none of
/// whose circles closes. And it can't be left out that none closes: two threads that take them in
/// opposite orders keep to two facts that close one, and reach a deadlock.
pub fn law_facts_kept()
    ensures agreed { AgreedKeeps }
    ensures crossed { CrossedDeadlocks }
{}

/// Each reason says something: of two facts of two locks in opposite orders it alone keeps the
/// circle from closing.
pub fn law_reasons()
    ensures one_thread { AloneByThread }
    ensures gate { AloneByGate }
    ensures readers { AloneByReaders }
    ensures limit { AloneByLimit }
    ensures all_waits { AloneByWaits }
    ensures one_waits { AloneByWait }
    ensures at_first { AloneAtFirst }
    ensures joined { AloneByJoin }
    ensures made { AloneByMaking }
{}
