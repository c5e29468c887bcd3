//! Laws of what is told. Each function is a theorem, and does nothing.

ghost use Rattle.wit_circles.specs.Laws.{JudgedIsParted, LeadsByWays, NothingToldIsFree, ThreeAreMet};

/// Whether orders lead from one type to another is whether there is a way.
pub fn law_orders_lead_by_ways()
    ensures { LeadsByWays }
{}

/// Each order that was judged is kept or told. Those that are kept have no circle. One that is told
/// closes a circle with these: by them a way goes from its second type back to its first. There are
/// such orders: of three that lead round the first two are kept, and the last one is told.
pub fn law_judged_orders_are_parted()
    ensures parted { JudgedIsParted }
    ensures free { NothingToldIsFree }
    ensures met { ThreeAreMet }
{}
