//! Laws of what is written. Each function is a theorem, and does nothing.

ghost use Rattle.wit_import.specs.Example.{RequestIsMet, TextIsSpelled};
ghost use Rattle.wit_import.specs.Laws.{LinesAreSpelled, PairsAreTold, RequestsAreWritten};

/// No pair of types is lost. After a request each of its pairs counts as written, where a trace has
/// room for its types. Each pair that counts so was written: the text has a request for the one type
/// by a thread that holds the other. So it is where a thread asks for a B under an A.
pub fn law_no_pair_is_lost()
    ensures told { PairsAreTold }
    ensures written { RequestsAreWritten }
    ensures met { RequestIsMet }
{}

/// The lines that are written are lines of a trace, as its grammar spells them. So are the nine that
/// are written of a request for a B under an A.
pub fn law_lines_are_spelled()
    ensures lines { LinesAreSpelled }
    ensures met { TextIsSpelled }
{}
