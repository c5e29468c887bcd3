//! What each seat does.

ghost use Rattle.std.specs.Prelude.{◌≡◌, ◌<◌};

use std::sync::Wait;
use wit_gates::CondGate;
use wit_locks::{Mtx, abandon};
use wit_model::{Fault, Site};
use wit_shared::{Room, Seat, Shared};

// How often each thread takes the two mutexes.
const ROUNDS: u32 = 100;

/// Takes the first mutex and then the second, 100 times, and lets them go.
///
/// # Errors
/// Those of the verifier's calls.
pub(crate) fn work<J: Room, R: Wait>(
    rt: &R,
    shared: &Shared<J>,
    seat: &mut Seat<J>,
    first: &Mtx<J, CondGate>,
    second: &Mtx<J, CondGate>,
) -> Result<(), Fault> {
    for _ in 0..ROUNDS {
        take_both(rt, shared, seat, first, second, 1)?;
    }
    Ok(())
}

/// Takes a mutex at this line of the file `demo`, and at the next line a second one, and lets both
/// go.
///
/// # Errors
/// Those of the verifier's calls.
pub(crate) fn take_both<J: Room, R: Wait>(
    rt: &R,
    shared: &Shared<J>,
    seat: &mut Seat<J>,
    first: &Mtx<J, CondGate>,
    second: &Mtx<J, CondGate>,
    line: u32,
) -> Result<(), Fault>
    requires { line < 4 }
{
    let file = shared.file(rt, seat, "demo")?;
    let held = first.lock(rt, shared, seat, Site { file, line })?;
    let answer = take_one(
        rt,
        shared,
        seat,
        second,
        Site {
            file,
            line: line + 1,
        },
    );
    match first.unlock(rt, shared, seat, held) {
        Ok(left) => match left {
            None => answer,
            Some(held) => {
                abandon(held);
                unreachable!()
            }
        },
        Err((held, fault)) => {
            abandon(held);
            Err(fault)
        }
    }
}

fn take_one<J: Room, R: Wait>(
    rt: &R,
    shared: &Shared<J>,
    seat: &mut Seat<J>,
    mutex: &Mtx<J, CondGate>,
    site: Site,
) -> Result<(), Fault>
    ensures { seat.new.seat ≡ seat.old.seat }
{
    let held = mutex.lock(rt, shared, seat, site)?;
    match mutex.unlock(rt, shared, seat, held) {
        Ok(left) => match left {
            None => Ok(()),
            Some(held) => {
                abandon(held);
                unreachable!()
            }
        },
        Err((held, fault)) => {
            abandon(held);
            Err(fault)
        }
    }
}
