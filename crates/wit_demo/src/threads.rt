//! Six seats, four of them in threads of their own.

ghost use Rattle.std.specs.Prelude.{◌≡◌, IfOk, length, vec_len};

use crate::rounds::{take_both, work};
use bitflags::Flags;
use std::alloc::Global;
use std::sync::{Mutex, Wait};
use std::thread::{self, Threads};
use wit_core::Verifier;
use wit_gates::CondGate;
use wit_locks::Mtx;
use wit_model::{Fault, LockFlags};
use wit_shared::{OpenedVerifier, Room, Seat, Shared, abandon_all};

/// Runs the demonstration, and gives the verifier back. Where a thread can't be started its work is
/// done in this one.
///
/// # Errors
/// Those of the calls.
pub(crate) fn run<J: Room + Send + Sync, R: Threads + Wait + Sync>(
    rt: &R,
    alloc: Global,
    opened: OpenedVerifier,
) -> Result<Verifier, Fault>
    requires { (opened.story.start ≡ J.start) × (opened.table ≡ J.table) × (opened.list ≡ J.list) }
    ensures { IfOk result (λ v. v.start ≡ J.start) }
{
    let (shared, _observers) = match opened.named::<J, R>(rt, 0) {
        Ok(named) => named,
        Err(_) => return Err(Fault::OutOfMemory),
    };
    match hire(rt, alloc, &shared) {
        Ok(mut seats) => {
            let did = take_turns(rt, alloc, &shared, seats.as_mut_slice());
            end(rt, shared, seats, did)
        }
        Err(fault) => {
            shared.abandon(rt);
            Err(fault)
        }
    }
}

// Six seats.
fn hire<J: Room, R: Wait>(rt: &R, alloc: Global, shared: &Shared<J>) -> Result<Vec<Seat<J>>, Fault>
    ensures { IfOk result (λ seats. vec_len seats ≡ 6) }
{
    let mut seats = Vec::with_capacity(alloc, 6)?;
    for _ in 0..6usize {
        match shared.seat(rt) {
            Ok(seat) => seats.push_reserved(seat),
            Err(fault) => {
                abandon_all(seats);
                return Err(fault);
            }
        }
    }
    Ok(seats)
}
// What the six seats do.
fn take_turns<J: Room + Send + Sync, R: Threads + Wait + Sync>(
    rt: &R,
    alloc: Global,
    shared: &Shared<J>,
    seats: &mut [Seat<J>],
) -> Result<(), Fault>
    requires { length seats.old ≡ 6 }
{
    let a = mutex(rt, alloc, shared, &mut seats[0], "A")?;
    let b = mutex(rt, alloc, shared, &mut seats[0], "B")?;
    work_all(rt, shared, &mut seats[1..5], &a, &b)?;
    take_both(rt, shared, &mut seats[5], &b, &a, 3)
}

// Each of these seats takes the two mutexes, in a thread of its own.
fn work_all<J: Room + Send + Sync, R: Threads + Wait + Sync>(
    rt: &R,
    shared: &Shared<J>,
    seats: &mut [Seat<J>],
    first: &Mtx<J, CondGate>,
    second: &Mtx<J, CondGate>,
) -> Result<(), Fault> {
    let refused = Mutex::new(None);
    thread::for_each_mut(
        rt,
        seats,
        4,
        &|_, seat| if let Err(fault) = work(rt, shared, seat, first, second) {
            *refused.lock(rt) = Some(fault);
        },
    );
    match refused.into_inner() {
        Some(fault) => Err(fault),
        None => Ok(()),
    }
}

// Closes the verifier, or gives it up where a call was refused.
fn end<J: Room, R: Wait>(
    rt: &R,
    shared: Shared<J>,
    seats: Vec<Seat<J>>,
    did: Result<(), Fault>,
) -> Result<Verifier, Fault>
    ensures { IfOk result (λ v. v.start ≡ J.start) }
{
    if let Err(fault) = did {
        abandon_all(seats);
        shared.abandon(rt);
        return Err(fault);
    }
    match shared.close(rt, seats) {
        Ok(verifier) => Ok(verifier),
        Err(unclosed) => {
            unclosed.abandon(rt);
            Err(Fault::UnknownSeat)
        }
    }
}

fn mutex<J: Room, R: Wait>(
    rt: &R,
    alloc: Global,
    shared: &Shared<J>,
    seat: &mut Seat<J>,
    name: &str,
) -> Result<Mtx<J, CondGate>, Fault> {
    let gate = CondGate::new(alloc)?;
    match Mtx::new(rt, shared, seat, name, None, LockFlags::empty(), gate) {
        Ok(mutex) => Ok(mutex),
        Err((_, fault)) => Err(fault),
    }
}
