//! A verifier that compares a request with all locks that its seat holds, and is shared: what it
//! learns behind them at once is published.

ghost use Rattle.std.specs.Prelude.{◌≡◌};

use crate::verifiers::{a_seat, ask, closed, mutex};
use std::alloc::Global;
use std::process::Abort;
use std::sync::Wait;
use std::test::Fail;
use wit_core::Verifier;
use wit_model::{Limits, Mode, Reply, Site, TypeNo};
use wit_shared::{Observer, Program, Room, Shared, share};

/// How many orders a reply teaches behind all held locks.
fn learnt(reply: &Reply) -> usize {
    match reply {
        Reply::AdoptedAll(orders) => orders.get().pairs().len(),
        _ => 0,
    }
}

/// One seat has twelve mutexes by tries, and asks for one more.
#[derive(Drop)]
struct TwelveAtOnce {
    alloc: Global,
}

impl<R: Wait + Abort> Program<R> for TwelveAtOnce {
    type Out = ();

    ghost suits = { λ program start observers. observers ≡ 1 };

    ghost done = { λ program out. Unit {0} };

    fn run<J: Room + Send + Sync>(
        self,
        rt: &R,
        shared: Shared<J>,
        mut observers: Vec<Observer<J>>,
    ) {
        let mut observer = observers.pop().expect(rt, "an observer");
        let mut seat = a_seat(rt, &shared);
        let file = shared.file(rt, &mut seat, "f").ok().expect(rt, "a file");
        for name in ["A", "B", "C", "D", "E", "F", "G", "H", "I", "J", "K", "L"] {
            let lock = mutex(rt, &shared, &mut seat, name);
            let site = Site { file, line: 1 };
            let tried = shared.note_try(rt, &mut seat, lock, Mode::Exclusive, site);
            tried.ok().expect(rt, "tried");
        }
        assert_eq!(rt; observer.orders_seen(), Some(0));
        let last = mutex(rt, &shared, &mut seat, "M");
        let reply = ask(rt, &shared, &mut seat, last, Site { file, line: 2 });
        assert_eq!(rt; learnt(&reply), 12);
        assert_eq!(rt; observer.orders_seen(), Some(12));
        for number in 1..=12 {
            let held = TypeNo(number);
            assert_eq!(rt; observer.known(held, TypeNo(13)), Some(true));
            assert_eq!(rt; observer.known(TypeNo(13), held), Some(false));
        }
        closed(rt, self.alloc, shared, seat);
    }
}

#[test]
fn orders_behind_all_held_locks_are_published(rt: HostRuntime) -> Result<(), Fail> {
    let alloc = rt.alloc();
    let limits = Limits::new(1, 16, 16, 8, 64).expect(&rt, "limits");
    let verifier = Verifier::new_all_held(alloc, limits, Vec::new(alloc), Vec::new(alloc))
        .ok()
        .expect(&rt, "memory for a verifier");
    assert!(rt; share(alloc, &rt, verifier, 1, TwelveAtOnce { alloc }).is_ok());
    Ok(())
}
