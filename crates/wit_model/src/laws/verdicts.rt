//! Laws of the verdict of a check: what its replies say of the orders between lock types. Each
//! function is a theorem, and does nothing.

ghost use Rattle.wit_model.specs.VerdictLaws.{
  OrdersAreAdoptedOnce,
  ReversalsAreOfHeldLocks,
  ReversalsBreakOrders,
  DuplicatesAreOfOneType,
  PairsAreReportedOnce,
  PassedIsDirect,
  DirectPasses,
  PassedPassesOn,
  HeldComeFirst,
  TwoMutexesAreClean,
  AheadStays,
  AheadJoins,
  NoneIsAheadOfItself,
};

/// No order between two lock types is adopted twice, those of static lists included.
pub fn law_orders_adopted_once()
    ensures { OrdersAreAdoptedOnce }
{}

/// What a reversal tells is so. It names a lock that the seat holds and the lock that it asks for;
/// and where its heading is the plain one, a path of orders adopted until then leads from the
/// requested lock's type to the held lock's: the "lock order reversal" of witness(4).
pub fn law_reversal_breaks_order()
    ensures held { ReversalsAreOfHeldLocks }
    ensures order { ReversalsBreakOrders }
{}

/// No pair of lock types is reported twice, in whichever order and whether as a reversal or as a
/// duplicate, which is of two locks of one type.
pub fn law_pairs_reported_once()
    ensures once { PairsAreReportedOnce }
    ensures duplicate { DuplicatesAreOfOneType }
{}

/// A request needs to be checked once. Where everything is watched and a request for a lock that
/// its seat doesn't hold, which may teach an order and allows no second lock of a type, passed or
/// taught its order behind a last held lock of its kind, that order is a direct one from then on:
/// whoever asks, whenever, for a lock of that type while his last held lock of its kind is of that
/// other type, passes, if no fault refuses the check, and teaches nothing. So a recorder may leave
/// such a check out, where the seat doesn't hold the lock, nor a spin lock if that is of the sleep
/// kind: no rule then refuses it. Giant together with a sleepable lock is excepted: these two may
/// be taken in either order, and that of a sleepable lock behind Giant is never learnt.
pub fn law_passed_passes_on()
    ensures direct { PassedIsDirect }
    ensures judged { DirectPasses }
    ensures later { PassedPassesOn }
{}

/// In a clean run a seat takes its locks in one order. Where nothing was reported, everything was
/// watched, each check might teach an order, and nothing is excepted (no try, no second lock of a
/// type allowed, no Giant, no blessed pair), each check of a lock that its seat doesn't hold leaves
/// every lock that it holds ahead of that one: those of its kind by a path of adopted orders
/// between their types, and a spin lock only of spin locks. WITNESS compares with the last held
/// lock alone, and yet this is true of all of them. Two mutexes of which one is asked for under the
/// other are such a run.
pub fn law_held_come_first()
    ensures ahead { HeldComeFirst }
    ensures met { TwoMutexesAreClean }
{}

/// "Ahead" is an order of locks: once one is ahead of another it stays so, what is ahead of a lock
/// is ahead of all that this one is ahead of, and no lock is ever ahead of itself.
pub fn law_ahead_is_order()
    ensures stays { AheadStays }
    ensures joins { AheadJoins }
    ensures sound { NoneIsAheadOfItself }
{}
