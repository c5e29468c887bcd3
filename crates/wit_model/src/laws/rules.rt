//! Laws of the rules: what holds of every legal history. Each function is a theorem, and does
//! nothing.

ghost use Rattle.wit_model.specs.Trace.Spelling.{IsOneSpelling};
ghost use Rattle.wit_model.specs.Trace.Reading.{ReadsSpellings};
ghost use Rattle.wit_model.specs.Laws.{
  OrdersStaySound,
  TestFindsPaths,
  PendingIsNoted,
  PendingIsGivenUp,
  CheckedIsNoted,
  UsedLocksAreLive,
  OffIsForGood,
  IsExhaustedOnce,
  FilesMayGrow,
};

/// No lock type is ever before itself.
pub fn law_orders_sound()
    ensures { OrdersStaySound }
{}

/// A type is before another exactly where a path of adopted orders leads from it.
pub fn law_before_is_path()
    ensures { TestFindsPaths }
{}

/// The note of a request that passed its check is accepted as long as it is pending, and so is its
/// being given up.
pub fn law_note_after_check()
    ensures pending { PendingIsNoted }
    ensures given_up { PendingIsGivenUp }
    ensures at_once { CheckedIsNoted }
{}

/// No lock that a seat holds or asks for is destroyed.
pub fn law_used_locks_live()
    ensures { UsedLocksAreLive }
{}

/// Once nothing is watched, nothing is ever watched again.
pub fn law_off_is_for_good()
    ensures { OffIsForGood }
{}

/// That the chunks are exhausted is told once at most.
pub fn law_exhausted_once()
    ensures { IsExhaustedOnce }
{}

/// A history stays legal where more files are named.
pub fn law_files_may_grow()
    ensures { FilesMayGrow }
{}

/// No two lines of a trace have one spelling.
pub fn law_one_spelling()
    ensures { IsOneSpelling }
{}

/// Reading finds the line that the bytes spell, where there is one, and none where there is none.
pub fn law_reading_finds_spellings()
    ensures { ReadsSpellings }
{}
