//! What calls of locks answer, each where no other answer is right.

ghost use Rattle.std.specs.Prelude.{◌≡◌, Ok, Err, Some};
ghost use Rattle.wit_model.specs.declared.faults.Fault.{Fault};
ghost use Rattle.wit_model.specs.declared.locks.Mode.TheVariants.{Exclusive};

use std::process::Abort;
use std::sync::Wait;
use wit_gates::Gate;
use wit_locks::{Held, Mtx, abandon};
use wit_model::{Fault, Site};
use wit_shared::{Room, Seat, Shared};

/// Takes a mutex.
pub(crate) fn taken<R: Wait + Abort, J: Room, G: Gate>(
    rt: &R,
    shared: &Shared<J>,
    seat: &mut Seat<J>,
    mutex: &Mtx<J, G>,
    site: Site,
) -> Held<G>
    ensures gate { G.admits mutex.now.gate Exclusive result.ticket
        × (result.hold.mode ≡ Exclusive) }
    ensures held { (result.hold.lock ≡ mutex.now.number) × (result.hold.seat.0 ≡ seat.old.seat) }
    ensures seat { seat.new.seat ≡ seat.old.seat }
{
    granted(rt, mutex.lock(rt, shared, seat, site))
}

/// Lets it go.
pub(crate) fn let_go<R: Wait + Abort, J: Room, G: Gate>(
    rt: &R,
    shared: &Shared<J>,
    seat: &mut Seat<J>,
    mutex: &Mtx<J, G>,
    held: Held<G>,
)
    requires gate { G.admits mutex.now.gate Exclusive held.ticket × (held.hold.mode ≡ Exclusive) }
    requires held { (held.hold.lock ≡ mutex.now.number) × (held.hold.seat.0 ≡ seat.old.seat) }
    ensures { seat.new.seat ≡ seat.old.seat }
{
    released(rt, mutex.unlock(rt, shared, seat, held))
}

// Ends the test, whose call is refused.
fn panic_of<R: Abort>(rt: &R, fault: Fault) -> ! {
    panic!(rt; "refused: {fault}")
}

/// The token.
pub(crate) fn granted<R: Abort, G: Gate>(rt: &R, answer: Result<Held<G>, Fault>) -> Held<G>
    ensures { answer ≡ Ok result }
{
    match answer {
        Ok(held) => held,
        Err(fault) => panic_of(rt, fault),
    }
}

/// None: the lock isn't had, for this fault.
pub(crate) fn not_granted<R: Abort, G: Gate>(
    rt: &R,
    answer: Result<Held<G>, Fault>,
    wanted: Fault,
) {
    match answer {
        Ok(held) => {
            abandon(held);
            rt.panic("not refused")
        }
        Err(fault) => assert_eq!(rt; fault, wanted),
    }
}

/// The token of a try.
pub(crate) fn tried<R: Abort, G: Gate>(rt: &R, answer: Result<Option<Held<G>>, Fault>) -> Held<G>
    ensures { answer ≡ Ok (Some result) }
{
    match answer {
        Ok(held) => match held {
            Some(held) => held,
            None => rt.panic("not tried successfully"),
        },
        Err(fault) => panic_of(rt, fault),
    }
}

/// None: the try came in vain.
pub(crate) fn shut<R: Abort, G: Gate>(rt: &R, answer: Result<Option<Held<G>>, Fault>) {
    match answer {
        Ok(held) => match held {
            Some(held) => {
                abandon(held);
                rt.panic("the gate was entered")
            }
            None => {}
        },
        Err(fault) => panic_of(rt, fault),
    }
}

/// The token that a call takes and gives.
pub(crate) fn kept<R: Abort, G: Gate>(rt: &R, answer: Result<Held<G>, (Held<G>, Fault)>) -> Held<G>
    ensures { answer ≡ Ok result }
{
    match answer {
        Ok(held) => held,
        Err((held, fault)) => {
            abandon(held);
            panic_of(rt, fault)
        }
    }
}

/// The token that comes back with a fault.
pub(crate) fn refused<R: Abort, G: Gate>(
    rt: &R,
    answer: Result<Held<G>, (Held<G>, Fault)>,
    wanted: Fault,
) -> Held<G>
    ensures { (fault : Fault) × (answer ≡ Err (result, fault)) }
{
    match answer {
        Ok(held) => {
            abandon(held);
            rt.panic("not refused")
        }
        Err((held, fault)) => {
            if fault != wanted {
                abandon(held);
                panic_of(rt, fault)
            }
            held
        }
    }
}

/// The token that a release gives back, which is one of several.
pub(crate) fn left<R: Abort, G: Gate>(
    rt: &R,
    answer: Result<Option<Held<G>>, (Held<G>, Fault)>,
) -> Held<G>
    ensures { answer ≡ Ok (Some result) }
{
    match answer {
        Ok(held) => match held {
            Some(held) => held,
            None => rt.panic("released for good"),
        },
        Err((held, fault)) => {
            abandon(held);
            panic_of(rt, fault)
        }
    }
}

/// The last release.
pub(crate) fn released<R: Abort, G: Gate>(
    rt: &R,
    answer: Result<Option<Held<G>>, (Held<G>, Fault)>,
) {
    match answer {
        Ok(held) => match held {
            None => {}
            Some(held) => {
                abandon(held);
                rt.panic("still held")
            }
        },
        Err((held, fault)) => {
            abandon(held);
            panic_of(rt, fault)
        }
    }
}

/// The token that comes back from a release with a fault.
pub(crate) fn not_released<R: Abort, G: Gate>(
    rt: &R,
    answer: Result<Option<Held<G>>, (Held<G>, Fault)>,
    wanted: Fault,
) -> Held<G>
    ensures { (fault : Fault) × (answer ≡ Err (result, fault)) }
{
    match answer {
        Ok(held) => {
            if let Some(held) = held {
                abandon(held);
            }
            rt.panic("released")
        }
        Err((held, fault)) => {
            if fault != wanted {
                abandon(held);
                panic_of(rt, fault)
            }
            held
        }
    }
}
