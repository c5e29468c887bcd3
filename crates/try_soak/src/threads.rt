//! The threads, each with its seat, and what comes of them.

ghost use Rattle.std.specs.Prelude.{◌≡◌, ◌≤◌};

use crate::locks::{Watched, make};
use crate::plan::Plan;
use crate::random::Random;
use crate::rounds::work;
use crate::walking::{turn, walk};
use crate::worker::{Place, Tally, Worker};
use std::alloc::{AllocError, Global};
use std::sync::Wait;
use std::thread::{self, Threads};
use wit_core::Verifier;
use wit_model::{Fault, FileNo, SeatNo};
use wit_shared::{Observer, OpenedVerifier, Room, Seat, Shared, Unclosed, abandon_all};

// How often an observer looks, at most.
const LOOKS: u32 = 1_000_000;

/// What all threads have done before any goes on.
#[derive(Clone, Copy)]
enum Part {
    /// Each makes each call but those that turn the watch.
    Walk,
    /// Each turns the watch, and back.
    Turn,
    /// Each makes so many rounds of calls.
    Rounds(u32),
}

/// What a soak leaves.
#[derive(Drop)]
pub(crate) struct Soaked {
    pub(crate) verifier: Verifier,
    /// What each thread counted, by its seat.
    pub(crate) tallies: Vec<(SeatNo, Tally)>,
    /// Whether the observer that looked on while the verifier was closed never went back, and
    /// answers no more.
    pub(crate) looked_on: bool,
}

/// Has threads take locks by a plan, and gives the verifier back.
///
/// # Errors
/// Want of memory, before the threads begin or when they have ended.
pub(crate) fn run<J: Room + Send + Sync + 'static, R: Threads + Wait + Sync>(
    rt: &R,
    alloc: Global,
    opened: OpenedVerifier,
    plan: Plan,
) -> Result<Soaked, Fault>
    requires name { (opened.story.start ≡ J.start) × (opened.table ≡ J.table)
        × (opened.list ≡ J.list) }
    requires few { plan.threads ≤ 255 }
{
    let (shared, mut observers) = match opened.named::<J, R>(rt, plan.threads + 1) {
        Ok(named) => named,
        Err(_) => return Err(Fault::OutOfMemory),
    };
    let spare = observers.pop();
    match soak(rt, alloc, &shared, observers, plan) {
        Ok((seats, tallies)) => {
            let (closed, looked_on) = close(rt, shared, seats, spare);
            match closed {
                Ok(verifier) => Ok(Soaked {
                    verifier,
                    tallies,
                    looked_on,
                }),
                Err(unclosed) => {
                    unclosed.abandon(rt);
                    Err(Fault::UnknownSeat)
                }
            }
        }
        Err(fault) => {
            shared.abandon(rt);
            Err(fault)
        }
    }
}

// Closes the verifier while an observer looks on, as far as a thread can be had. It answers no more
// then.
fn close<J: Room + Send + Sync + 'static, R: Threads + Wait + Sync>(
    rt: &R,
    shared: Shared<J>,
    seats: Vec<Seat<J>>,
    spare: Option<Observer<J>>,
) -> (Result<Verifier, Unclosed<J>>, bool) {
    let Some(observer) = spare else {
        return (shared.close(rt, seats), false);
    };
    match thread::spawn(rt, move || look_on(observer)) {
        Ok(looking) => {
            let closed = shared.close(rt, seats);
            let (mut observer, kept) = looking.join(rt);
            (closed, kept && observer.orders_seen().is_none())
        }
        Err(_) => (shared.close(rt, seats), true),
    }
}

// Whether an observer never goes back, until it doesn't answer any more. It comes back.
fn look_on<J: Room>(mut observer: Observer<J>) -> (Observer<J>, bool) {
    let mut orders = 0;
    for _ in 0..LOOKS {
        match observer.orders_seen() {
            Some(now) if now < orders => return (observer, false),
            Some(now) => orders = now,
            None => break,
        }
        thread::yield_now();
    }
    (observer, true)
}

// Hires the threads, has them take locks, and lets them go. All seats come back.
fn soak<J: Room + Send + Sync, R: Threads + Wait + Sync>(
    rt: &R,
    alloc: Global,
    shared: &Shared<J>,
    observers: Vec<Observer<J>>,
    plan: Plan,
) -> Result<(Vec<Seat<J>>, Vec<(SeatNo, Tally)>), Fault> {
    let mut first = shared.seat(rt)?;
    let mut workers = match hire(rt, alloc, shared, observers, plan) {
        Ok(workers) => workers,
        Err(fault) => {
            first.abandon();
            return Err(fault);
        }
    };
    let soaked = soak_locks(rt, alloc, shared, &mut first, &mut workers, plan);
    let (seats, tallies) = dismiss(alloc, first, workers)?;
    match soaked {
        Ok(()) => Ok((seats, tallies)),
        Err(fault) => {
            abandon_all(seats);
            Err(fault)
        }
    }
}

// Makes the locks, runs the threads, and takes the locks apart.
fn soak_locks<J: Room + Send + Sync, R: Threads + Wait + Sync>(
    rt: &R,
    alloc: Global,
    shared: &Shared<J>,
    first: &mut Seat<J>,
    workers: &mut Vec<Worker<J>>,
    plan: Plan,
) -> Result<(), Fault> {
    let mut locks = Vec::new(alloc);
    for number in 0..plan.locks {
        // One that is refused, for want of memory, is left out.
        if let Ok(lock) = make(rt, alloc, shared, first, number, plan.locks) {
            add(&mut locks, lock)?;
        }
    }
    // Nobody turns the watch while another walks: a release that is forbidden might not be allowed
    // again.
    for part in [Part::Walk, Part::Turn, Part::Rounds(plan.rounds)] {
        let locks = locks.as_slice();
        soak_all(rt, alloc, shared, locks, workers, plan, part);
    }
    let mut right = true;
    for lock in locks {
        // One that is refused, for want of memory, is right as far as is seen.
        if let Ok(false) = lock.destroy(rt, shared, first) {
            right = false;
        }
    }
    if !right && let Some(worker) = workers.first_mut() {
        worker.tally.blame("a gate lets nobody in");
    }
    Ok(())
}

// A worker for each observer.
fn hire<J: Room, R: Wait>(
    rt: &R,
    alloc: Global,
    shared: &Shared<J>,
    observers: Vec<Observer<J>>,
    plan: Plan,
) -> Result<Vec<Worker<J>>, Fault> {
    let mut workers = Vec::with_capacity(alloc, observers.len())?;
    for observer in observers {
        if let Err(fault) = hire_one(rt, shared, &mut workers, observer, plan) {
            let_all_go(workers);
            return Err(fault);
        }
    }
    Ok(workers)
}

fn hire_one<J: Room, R: Wait>(
    rt: &R,
    shared: &Shared<J>,
    workers: &mut Vec<Worker<J>>,
    observer: Observer<J>,
    plan: Plan,
) -> Result<(), Fault> {
    let number = u32::try_from(workers.len()).unwrap_or(u32::MAX);
    workers.reserve(1)?;
    workers.push_reserved(Worker {
        seat: shared.seat(rt)?,
        observer,
        random: Random::new(u64::from(plan.seed) << 16 | u64::from(number)),
        file: FileNo(0),
        turns: number == 0,
        tally: Tally::new(),
    });
    Ok(())
}

fn let_all_go<J: Room>(mut workers: Vec<Worker<J>>) {
    while let Some(worker) = workers.pop() {
        worker.let_go();
    }
    workers.destroy_empty();
}

// A part of it, each worker in a thread of its own, as far as threads can be had.
fn soak_all<J: Room + Send + Sync, R: Threads + Wait + Sync>(
    rt: &R,
    alloc: Global,
    shared: &Shared<J>,
    locks: &[Watched<J>],
    workers: &mut Vec<Worker<J>>,
    plan: Plan,
    part: Part,
) {
    let threads = workers.len();
    if threads == 0 {
        return;
    }
    let quiet = plan.seed % 2 == 1;
    thread::for_each_mut(
        rt,
        workers.as_mut_slice(),
        threads,
        &|_, worker| {
            let place = Place {
                rt,
                alloc,
                shared,
                locks,
                quiet,
            };
            take_part(&place, worker, part)
        },
    );
}

fn take_part<J: Room, R: Wait>(place: &Place<J, R>, worker: &mut Worker<J>, part: Part) {
    match part {
        Part::Walk => walk(place, worker),
        Part::Turn => turn(place, worker),
        Part::Rounds(rounds) => work(place, worker, rounds),
    }
}

// The seats, and what their threads counted.
fn dismiss<J: Room>(
    alloc: Global,
    first: Seat<J>,
    mut workers: Vec<Worker<J>>,
) -> Result<(Vec<Seat<J>>, Vec<(SeatNo, Tally)>), AllocError> {
    let mut seats = Vec::new(alloc);
    let mut tallies = Vec::new(alloc);
    let mut kept = keep(&mut seats, first);
    while let Some(worker) = workers.pop() {
        let (seat, tally) = worker.into_parts();
        kept = kept.and(add(&mut tallies, (seat.number(), tally)));
        kept = kept.and(keep(&mut seats, seat));
    }
    workers.destroy_empty();
    tallies.reverse();
    match kept {
        Ok(()) => Ok((seats, tallies)),
        Err(refused) => {
            abandon_all(seats);
            Err(refused)
        }
    }
}

// Puts a seat to these, or gives it up.
fn keep<J: Room>(seats: &mut Vec<Seat<J>>, seat: Seat<J>) -> Result<(), AllocError> {
    let room = seats.reserve(1);
    if room.is_ok() {
        seats.push_reserved(seat);
    } else {
        seat.abandon();
    }
    room
}

fn add<T: Drop>(list: &mut Vec<T>, item: T) -> Result<(), AllocError> {
    list.push(item)?;
    Ok(())
}
