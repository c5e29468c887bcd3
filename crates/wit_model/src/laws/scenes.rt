//! Laws of scenes: of worlds as they are kept while threads go on. Each function is a theorem, and
//! does nothing.

ghost use Rattle.wit_model.specs.SceneLaws.{
  OpeningShows,
  StepsAreDeeds,
  CallsAreDeeds,
  DeedsAreSteps,
  DeedsAreCalls,
  CallsAreAnswered,
  NamingKeepsWorlds,
  WaitsAreShown,
  CirclesAreDeadlocks,
};
ghost use Rattle.wit_model.specs.World.StepTable.{LinesFollow, LocksAdmit, OtherLocksDont};

/// Each accepted step of a lock, and each accepted call, is a deed of its thread: where a scene
/// shows a world, the next scene shows that world with the deed. So what is accepted from the
/// beginning on is a world.
pub fn law_accepted_are_deeds()
    ensures begins { OpeningShows }
    ensures steps { StepsAreDeeds }
    ensures calls { CallsAreDeeds }
{}

/// Where the world that a scene shows allows its thread a deed, the step or call is accepted. Two
/// deeds alone are left out: a thread whose try or upgrade the verifier refused lets go of what it
/// got, and a refused call isn't among those that a scene is told of. A call that may come next
/// gets the verifier's own answer.
pub fn law_deeds_are_accepted()
    ensures steps { DeedsAreSteps }
    ensures calls { DeedsAreCalls }
    ensures answered { CallsAreAnswered }
{}

/// Naming one more file changes neither a world nor what a scene shows of it.
pub fn law_naming_keeps_worlds()
    ensures { NamingKeepsWorlds }
{}

/// A scene tells which thread waits for which, so the circles over its shares are the deadlocks of
/// the world that it shows.
pub fn law_circles_are_deadlocks()
    ensures waits { WaitsAreShown }
    ensures circles { CirclesAreDeadlocks }
{}

/// What may come next at each stage of a sequence, as a table; nothing of a sequence may come for
/// another lock than its own; and which steps a lock admits, by how it is had.
pub fn law_step_table()
    ensures lines { LinesFollow }
    ensures others { OtherLocksDont }
    ensures admits { LocksAdmit }
{}
