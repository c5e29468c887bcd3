//! Laws of a recorder's answers. Each function is a theorem, and does nothing.

ghost use Rattle.wit_duty.specs.Streams.{
  EmptyIsKept,
  KeptStays,
  AnswersKeepSets,
  AnswersTellPairs,
  AnswersTellNoMore,
  KnownIsTold,
  KnownIsAlone,
  PairsToldKeepDuty,
  RecordedIsCovered,
  RecordedRunsNeverDeadlock,
};
ghost use Rattle.wit_duty.specs.Twice.{TwiceIsRecorded, TwiceMeetsPremises, TwiceWaits};

/// A pair that is in the sets of `wit_condensed` was written: the stream tells of it. So it is at
/// first, when the sets are empty. So it stays, whatever is written. So it is after each answer,
/// once its lines are written. After an answer each pair of its request is told, and no other but
/// those of links that weren't written yet. Where the sets know each pair of a request, these are
/// told already, and that of one lock alone by a request under one such lock.
pub fn law_sets_are_told()
    ensures empty { EmptyIsKept }
    ensures stays { KeptStays }
    ensures answers { AnswersKeepSets }
    ensures pairs { AnswersTellPairs }
    ensures no_more { AnswersTellNoMore }
    ensures known { KnownIsTold }
    ensures alone { KnownIsAlone }
{}

/// So a recorder keeps its duty: it asks of each request under held locks, unless it sees in the
/// sets that the pairs are known. What it writes covers all calls. Where that is clean, no
/// reordering of the run reaches a deadlock, if each thread had recorded what it had when it asked.
pub fn law_answers_keep_duty()
    ensures duty { PairsToldKeepDuty }
    ensures covers { RecordedIsCovered }
    ensures run { RecordedRunsNeverDeadlock }
{}

/// Such recordings are there, and leave requests out. Two threads ask for a lock of one type under
/// one of another, and the one waits for the other in between: the second request isn't written, and
/// the rest is clean.
pub fn law_asked_twice()
    ensures recorded { TwiceIsRecorded }
    ensures waits { TwiceWaits }
    ensures met { TwiceMeetsPremises }
{}
