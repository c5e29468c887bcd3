//! Two threads log, and the verifier comes back once all seats are there.

ghost use Rattle.std.specs.Prelude.{◌≡◌};

use crate::verifiers::{
    a_seat, closed_by_all, entries_of, leave, mutex, named, opened, pair_of, take,
};
use std::alloc::Global;
use std::marker::Brand;
use std::process::Abort;
use std::sync::Wait;
use std::test::Fail;
use std::thread::{Threads, join};
use wit_core::Verifier;
use wit_model::{Limits, LockNo, SeatNo, Site, Watch};
use wit_shared::{OpenedVerifier, Room, Seat, Shared};

fn limits(seats: u32) -> Option<Limits> {
    Limits::new(seats, 16, 64, 64, 4096)
}

/// Takes a mutex and lets it go, 50 times.
fn take_50_times<J: Room, R: Wait + Abort>(
    rt: &R,
    shared: &Shared<J>,
    seat: &mut Seat<J>,
    lock: LockNo,
    site: Site,
) {
    for _ in 0..50 {
        take(rt, shared, seat, lock, site);
        leave(rt, shared, seat, lock);
    }
}

/// A close without the third seat hands everything back, and one with it gives the verifier.
fn close_twice<J: Room, R: Wait + Abort>(
    rt: &R,
    shared: Shared<J>,
    seats: Vec<Seat<J>>,
    third: Seat<J>,
) -> Verifier {
    match shared.close(rt, seats) {
        Ok(_) => panic!(rt; "closed without a seat"),
        Err(unclosed) => {
            assert_eq!(rt; unclosed.missing(), SeatNo(3));
            let (shared, mut seats) = unclosed.into_parts();
            assert_eq!(rt; seats.len(), 2);
            seats.reserve(1).ok().expect(rt, "memory");
            seats.push_reserved(third);
            closed_by_all(rt, shared, seats)
        }
    }
}

fn run<J: Room + Send + Sync, R: Threads + Wait + Abort + Sync>(
    rt: &R,
    alloc: Global,
    opened: OpenedVerifier,
) -> Verifier
    requires { (opened.story.start ≡ J.start) × (opened.table ≡ J.table) × (opened.list ≡ J.list) }
{
    let shared = named::<R, J>(rt, opened);
    let mut one = a_seat(rt, &shared);
    let mut two = a_seat(rt, &shared);
    let mut three = a_seat(rt, &shared);
    let file = shared.file(rt, &mut one, "f").ok().expect(rt, "a file");
    let site = Site { file, line: 1 };
    let first = mutex(rt, &shared, &mut one, "a");
    let second = mutex(rt, &shared, &mut one, "b");
    let watched = &shared;
    let ((), ()) = join(
        rt,
        || take_50_times(rt, watched, &mut two, first, site),
        || take_50_times(rt, watched, &mut three, second, site),
    );
    close_twice(rt, shared, pair_of(rt, alloc, one, two), three)
}

#[test]
fn two_threads_log_and_all_seats_come_back(rt: HostRuntime) -> Result<(), Fail> {
    let alloc = rt.alloc();
    let verifier = run::<Brand, HostRuntime>(&rt, alloc, opened(&rt, alloc, limits(3)));
    assert_eq!(rt; verifier.history().len(), 302);
    assert_eq!(rt; entries_of(&verifier, SeatNo(1)), 2);
    assert_eq!(rt; entries_of(&verifier, SeatNo(2)), 150);
    assert_eq!(rt; entries_of(&verifier, SeatNo(3)), 150);
    Ok(())
}

/// One of three seats logs nothing. The verifier could have more.
fn leave_seats<J: Room, R: Wait + Abort>(rt: &R, alloc: Global, opened: OpenedVerifier) -> Verifier
    requires { (opened.story.start ≡ J.start) × (opened.table ≡ J.table) × (opened.list ≡ J.list) }
{
    let shared = named::<R, J>(rt, opened);
    let mut one = a_seat(rt, &shared);
    let mut two = a_seat(rt, &shared);
    let three = a_seat(rt, &shared);
    let file = shared.file(rt, &mut one, "f").ok().expect(rt, "a file");
    let lock = mutex(rt, &shared, &mut one, "a");
    take_50_times(rt, &shared, &mut two, lock, Site { file, line: 1 });
    close_twice(rt, shared, pair_of(rt, alloc, one, two), three)
}

#[test]
fn a_seat_that_logs_nothing_is_missed_and_no_other_one_is(rt: HostRuntime) -> Result<(), Fail> {
    let alloc = rt.alloc();
    let verifier = leave_seats::<Brand, HostRuntime>(&rt, alloc, opened(&rt, alloc, limits(8)));
    assert_eq!(rt; verifier.history().len(), 151);
    assert_eq!(rt; entries_of(&verifier, SeatNo(1)), 1);
    assert_eq!(rt; entries_of(&verifier, SeatNo(2)), 150);
    assert_eq!(rt; verifier.watch(), Watch::On);
    Ok(())
}
