//! Laws of recordings: what a clean history says of threads whose calls it needn't have. Each
//! function is a theorem, and does nothing.

ghost use Rattle.wit_recordings.specs.Duty.{
  WhatIsToldStays,
  DutyKeepsCover,
  CoverTellsOfRun,
  RunsCoveredNeverDeadlock,
  RecordedWorldsAskRecorded,
  RunAsksBehindBoth,
  RecordingLeavesItOut,
  ReportedMayDeadlock,
  UnrecordedMayDeadlock,
  UncoveredMayDeadlock,
};
ghost use Rattle.wit_recordings.specs.Recordings.{
  ThreadsToldOfNeverDeadlock,
  RunsToldAreToldMixed,
  RunsToldOfNeverDeadlock,
  RunsTogetherNeverDeadlock,
  MorePairsTellMore,
  ShorterIsClean,
  ShorterTells,
  ReportedTellsOfDeadlock,
  CleanLeadsRoundToNone,
  RoundToNoneIsClean,
  FewerPairsAreClean,
  CondensedTellsOfAll,
  RunsCondensedNeverDeadlock,
  ShorterCondenses,
};

/// Threads that ask for nothing but what a clean recording tells of never reach a circle of threads
/// that wait for one another's locks, whatever order they go in. A recording tells of a request
/// where, for each lock that the thread has then, some seat of it asks for a lock of the one type
/// while it holds one of the other. So one clean recording speaks of each reordering of a run that
/// it tells of, and of the threads of several runs together. One with more pairs tells of more.
pub fn law_recorded_never_deadlock()
    ensures told { ThreadsToldOfNeverDeadlock }
    ensures mixed { RunsToldAreToldMixed }
    ensures run { RunsToldOfNeverDeadlock }
    ensures runs { RunsTogetherNeverDeadlock }
    ensures more { MorePairsTellMore }
{}

/// Such recordings are there, and may be short: a clean one of a single request tells of a run of
/// two threads, by another seat and with locks of other numbers. Without cleanness the law would be
/// false: a recording with a report tells of threads that deadlock.
pub fn law_recording_shorter()
    ensures clean { ShorterIsClean }
    ensures told { ShorterTells }
    ensures reported { ReportedTellsOfDeadlock }
{}

/// Whether a history is clean is decided by its pairs of types alone. Those of a clean history lead
/// no type round to itself. And where they lead none round, the history is clean, if the report of
/// a request is all that could keep it from being so. So nothing is lost by a recording that has
/// all pairs of a run, in whatever order and however often.
pub fn law_pairs_decide()
    ensures clean { CleanLeadsRoundToNone }
    ensures round { RoundToNoneIsClean }
    ensures fewer { FewerPairsAreClean }
{}

/// A recorder may leave out a request where a lock of that type was asked for before behind locks
/// of the same types, in the same order, and each request behind no lock. What it keeps tells of
/// all pairs that the run's log tells of. Where it is clean, no reordering of the run reaches a
/// deadlock, if a report is all that could keep the run's own log from being clean. Such a
/// recording of a run is there.
pub fn law_condensed()
    ensures tells { CondensedTellsOfAll }
    ensures run { RunsCondensedNeverDeadlock }
    ensures met { ShorterCondenses }
{}

/// A recorder's duty: a request by a thread that holds locks is written, after all that the thread
/// holds, unless each of its pairs of types was written before. What is written so covers all calls:
/// it tells of each pair that they tell of. Where it is clean, no reordering of the run reaches a
/// deadlock, if each thread had recorded what it had when it asked. It doesn't matter whether the
/// run was reported, or a lock was tried in it. Each world meets that premise in which no
/// acquisition goes unrecorded.
pub fn law_covered_never_deadlock()
    ensures stays { WhatIsToldStays }
    ensures duty { DutyKeepsCover }
    ensures tells { CoverTellsOfRun }
    ensures run { RunsCoveredNeverDeadlock }
    ensures recorded { RecordedWorldsAskRecorded }
{}

/// Such a recording may leave out a request behind two locks, whose pairs it has from two others,
/// and be clean though the run has a try. None of the premises may go: threads deadlock where the
/// recording has a report, where it lacks pairs, and where what they had wasn't recorded.
pub fn law_left_out()
    ensures run { RunAsksBehindBoth }
    ensures met { RecordingLeavesItOut }
    ensures reported { ReportedMayDeadlock }
    ensures uncovered { UncoveredMayDeadlock }
    ensures unrecorded { UnrecordedMayDeadlock }
{}
