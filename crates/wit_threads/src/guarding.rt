//! Data that a lock guards.

ghost use Rattle.std.specs.Prelude.{◌≡◌};

use crate::fakes::{Counted, Counts};
use crate::tokens::{let_go, taken};
use crate::verifiers::{a_mutex, a_seat, a_site, closed, run_with};
use std::alloc::Global;
use std::process::Abort;
use std::sync::Wait;
use std::test::Fail;
use wit_gates::{CondGate, Gate};
use wit_locks::{Guarded, Mutex, SleepClass, Task, Unfinished, abandon};
use wit_model::{Fault, Reply, Site};
use wit_shared::{Observer, Program, Room, Seat, Shared};

/// Adds so much to a number, and tells the sum. The gate isn't left before.
#[derive(Drop)]
struct Add<'a> {
    more: u32,
    counts: &'a Counts,
}

impl Task<u32> for Add<'_> {
    type Out = u32;

    ghost done = { λ task before after out. Unit {0} };

    fn run(self, value: &mut u32, asked: Option<&Reply>) -> u32 {
        let [acquires, _, releases, _, _] = self.counts.all();
        // Nothing else is held, so nothing is said.
        if matches!(asked, Some(Reply::Pass)) && releases < acquires {
            *value = value.wrapping_add(self.more);
        }
        *value
    }
}

/// What the number is then, or the fault for which the lock wasn't acquired.
fn added<R: Wait + Abort, J: Room>(
    rt: &R,
    shared: &Shared<J>,
    seat: &mut Seat<J>,
    number: &Guarded<J, u32, Counted<'_, CondGate>, Mutex<SleepClass>>,
    counts: &Counts,
    site: Site,
    more: u32,
) -> Result<u32, Fault>
    ensures { seat.new.seat ≡ seat.old.seat }
{
    match number.with(rt, shared, seat, site, Add { more, counts }) {
        Ok(sum) => Ok(sum),
        Err(unfinished) => Err(fault_of(rt, unfinished)),
    }
}

/// Why the lock wasn't acquired.
fn fault_of<R: Abort, W: Drop, G: Gate>(rt: &R, unfinished: Unfinished<W, u32, G>) -> Fault {
    match unfinished {
        Unfinished::NotAcquired(_task, fault) => fault,
        Unfinished::NotReleased(_sum, held, fault) => {
            abandon(held);
            panic!(rt; "not released: {fault}")
        }
    }
}

/// A number that a mutex guards.
#[derive(Drop)]
struct Summed {
    alloc: Global,
}

impl<R: Wait + Abort> Program<R> for Summed {
    type Out = usize;

    ghost suits = { λ program start observers. Unit {0} };

    ghost done = { λ program out. Unit {0} };

    fn run<J: Room + Send + Sync>(
        self,
        rt: &R,
        shared: Shared<J>,
        _observers: Vec<Observer<J>>,
    ) -> usize {
        let mut seat = a_seat(rt, &shared);
        let site = a_site(rt, &shared, &mut seat);
        let counts = Counts::new();
        let gate = Counted {
            inner: CondGate::new(self.alloc).ok().expect(rt, "memory"),
            counts: &counts,
        };
        let number = Guarded::new(a_mutex(rt, &shared, &mut seat, "n", gate), 0u32);
        assert_eq!(rt;
            added(rt, &shared, &mut seat, &number, &counts, site, 2),
            Ok(2)
        );
        assert_eq!(rt;
            added(rt, &shared, &mut seat, &number, &counts, site, 3),
            Ok(5)
        );
        let held = taken(rt, &shared, &mut seat, number.lock(), site);
        let refused = added(rt, &shared, &mut seat, &number, &counts, site, 4);
        assert_eq!(rt; refused, Err(Fault::Recursed));
        let_go(rt, &shared, &mut seat, number.lock(), held);
        let (_lock, sum) = number.into_parts();
        assert_eq!(rt; sum, 5);
        closed(rt, self.alloc, shared, seat).history().len()
    }
}

#[test]
fn guarded_data_is_reached_under_its_lock(rt: HostRuntime) -> Result<(), Fail> {
    let alloc = rt.alloc();
    // The mutex is made, and taken three times with a check, a note and an unlock.
    assert_eq!(rt; run_with(&rt, alloc, 1, 64, Summed { alloc }), 10);
    Ok(())
}
