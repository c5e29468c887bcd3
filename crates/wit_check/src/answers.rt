//! What a verdict can be.

use wit_model::{Conflict, Doubling, Fault, TypeNo};

/// The verdict of a check, or of the defining of an order.
#[derive(Clone, Copy, Debug, PartialEq, Eq)]
pub enum Verdict {
    /// Nothing to say.
    Pass,
    /// The order of these types is to be adopted: the last held lock's and the requested one's, or
    /// those of a defined order.
    Adopt(TypeNo, TypeNo),
    /// The orders behind all held locks that may be learnt and are new are to be adopted; there is
    /// one at least. Only where a request is compared with all held locks.
    AdoptAll,
    /// The request breaks the order of these types, the held one and the requested one, and nothing
    /// is said of it: that was reported before, or the pair is blessed. Where both are one type, a
    /// second lock of a type that was found doubled is asked for.
    Silent(TypeNo, TypeNo),
    /// A second lock of a type is asked for: to be reported.
    Duplicate(Doubling),
    /// The request breaks an order: to be reported.
    Reversal(Conflict),
    /// The request is refused.
    Fault(Fault),
}
