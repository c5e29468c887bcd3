//! Laws of what is gathered. Each function is a theorem, and does nothing.

ghost use Rattle.wit_gathered.specs.Example.{PairIsMet};
ghost use Rattle.wit_gathered.specs.Laws.{PairsAreKept, PairsAreKnown, PairsStayKnown};

/// No pair of types is lost. After a request each of its pairs is known: that of each lock that its
/// context holds, or of its interrupt. It stays known, whatever lines follow. Each pair that is known
/// was kept: a request for the one type, under the other. So it is of a few lines in which two tasks ask
/// for a B under an A: one request is kept.
pub fn law_no_pair_is_lost()
    ensures known { PairsAreKnown }
    ensures stays { PairsStayKnown }
    ensures kept { PairsAreKept }
    ensures met { PairIsMet }
{}
