//! Observers answer of what is adopted, as long as the verifier is shared.

ghost use Rattle.std.specs.Prelude.{◌≡◌};

use crate::verifiers::{a_seat, closed, mutex, run_within, take};
use std::alloc::Global;
use std::process::Abort;
use std::sync::Wait;
use std::test::Fail;
use wit_core::Verifier;
use wit_model::{Class, Limits, Reply, Site, TypeNo};
use wit_shared::{News, Observer, Program, Room, Seat, Shared, share};

const A: TypeNo = TypeNo(1);

const B: TypeNo = TypeNo(2);

/// A further observer learns each of these, and knows the order from A to B.
fn observe_all<J: Room, R: Abort>(rt: &R, news: Vec<News<J>>) {
    for one in news {
        let mut observer = Observer::new(one).ok().expect(rt, "a place to look from");
        assert_eq!(rt; observer.known(A, B), Some(true));
    }
}

/// News that nobody has learnt yet.
fn some_news<J: Room, R: Wait + Abort>(
    rt: &R,
    alloc: Global,
    shared: &Shared<J>,
    seat: &mut Seat<J>,
) -> Vec<News<J>> {
    let mut news = Vec::with_capacity(alloc, 60).ok().expect(rt, "memory");
    for _ in 0..60 {
        news.push(shared.news(rt, seat)).ok().expect(rt, "memory");
    }
    news
}

/// One seat adopts the order from A to B. One observer learns of it, and the other looks.
#[derive(Drop)]
struct Adopted {
    alloc: Global,
}

impl<R: Wait + Abort> Program<R> for Adopted {
    type Out = ();

    ghost suits = { λ program start observers. observers ≡ 2 };

    ghost done = { λ program out. Unit {0} };

    fn run<J: Room + Send + Sync>(
        self,
        rt: &R,
        shared: Shared<J>,
        mut observers: Vec<Observer<J>>,
    ) {
        let mut looks = observers.pop().expect(rt, "an observer");
        let mut learns = observers.pop().expect(rt, "another observer");
        let mut seat = a_seat(rt, &shared);
        let file = shared.file(rt, &mut seat, "f").ok().expect(rt, "a file");
        let a = mutex(rt, &shared, &mut seat, "A");
        let b = mutex(rt, &shared, &mut seat, "B");
        assert_eq!(rt; learns.orders_seen(), Some(0));
        take(rt, &shared, &mut seat, a, Site { file, line: 1 });
        let told = take(rt, &shared, &mut seat, b, Site { file, line: 2 });
        assert!(rt; matches!(told, Reply::Adopted(..)), "adopted");
        let unlearnt = some_news(rt, self.alloc, &shared, &mut seat);
        learns.learn(shared.news(rt, &mut seat));
        observe_all(rt, unlearnt);
        shared.covers(rt, &mut seat, &learns);
        assert_eq!(rt; learns.known(A, B), Some(true));
        assert_eq!(rt; learns.known(B, A), Some(false));
        assert_eq!(rt; learns.known(A, A), Some(false));
        assert_eq!(rt; learns.orders_seen(), Some(1));
        assert_eq!(rt; looks.known(A, B), Some(true));
        closed(rt, self.alloc, shared, seat);
        assert_eq!(rt; learns.known(A, B), None);
        assert_eq!(rt; looks.orders_seen(), None);
    }
}

#[test]
fn observers_answer_of_what_is_adopted(rt: HostRuntime) -> Result<(), Fail> {
    let alloc = rt.alloc();
    run_within(
        &rt,
        alloc,
        Limits::new(1, 4, 4, 16, 64),
        2,
        Adopted { alloc },
    );
    Ok(())
}

/// The orders of static lists count.
#[derive(Drop)]
struct Listed;

impl<R: Wait + Abort> Program<R> for Listed {
    type Out = ();

    ghost suits = { λ program start observers. observers ≡ 1 };

    ghost done = { λ program out. Unit {0} };

    fn run<J: Room + Send + Sync>(
        self,
        rt: &R,
        shared: Shared<J>,
        mut observers: Vec<Observer<J>>,
    ) {
        let mut observer = observers.pop().expect(rt, "an observer");
        assert_eq!(rt; observer.orders_seen(), Some(1));
        assert_eq!(rt; observer.known(A, B), Some(true));
        shared.abandon(rt);
        assert_eq!(rt; observer.orders_seen(), None);
    }
}

#[test]
fn listed_orders_are_seen(rt: HostRuntime) -> Result<(), Fail> {
    let alloc = rt.alloc();
    let limits = Limits::new(1, 4, 4, 16, 64).expect(&rt, "limits");
    let mut list = Vec::new(alloc);
    list.push((Class::SleepMutex, String::from_str(alloc, "A")?))
        .ok()
        .expect(&rt, "memory");
    list.push((Class::SleepMutex, String::from_str(alloc, "B")?))
        .ok()
        .expect(&rt, "memory");
    let mut lists = Vec::new(alloc);
    lists.push(list).ok().expect(&rt, "memory");
    let verifier = Verifier::new(alloc, limits, lists, Vec::new(alloc))
        .ok()
        .expect(&rt, "memory for a verifier");
    assert!(rt; share(alloc, &rt, verifier, 1, Listed).is_ok());
    Ok(())
}

// How many mutexes there are, each of a type of its own, and each ordered behind the one before.
const MANY: u16 = 1_020;

/// Whether an observer answers of each of those orders, and of none turned round or from a type to
/// itself.
fn knows_each<J: Room>(observer: &mut Observer<J>) -> bool {
    for number in 1..MANY {
        let (before, after) = (TypeNo(number), TypeNo(number + 1));
        if observer.known(before, after) != Some(true)
            || observer.known(after, before) != Some(false)
            || observer.known(after, after) != Some(false)
        {
            return false;
        }
    }
    observer.orders_seen() == Some(u32::from(MANY) - 1)
}

/// One seat defines many orders. One observer learns of them, and the other looks.
#[derive(Drop)]
struct Many {
    alloc: Global,
}

impl<R: Wait + Abort> Program<R> for Many {
    type Out = ();

    ghost suits = { λ program start observers. observers ≡ 2 };

    ghost done = { λ program out. Unit {0} };

    fn run<J: Room + Send + Sync>(
        self,
        rt: &R,
        shared: Shared<J>,
        mut observers: Vec<Observer<J>>,
    ) {
        let mut looks = observers.pop().expect(rt, "an observer");
        let mut learns = observers.pop().expect(rt, "another observer");
        let mut seat = a_seat(rt, &shared);
        let mut last = mutex(rt, &shared, &mut seat, "1");
        for number in 2..=MANY {
            let name = format!(in self.alloc; "{number}").ok().expect(rt, "memory");
            let next = mutex(rt, &shared, &mut seat, name.as_str());
            match shared.define_order(rt, &mut seat, last, next) {
                Ok(Reply::Adopted(..)) => {}
                _ => panic!(rt; "not adopted"),
            }
            assert_eq!(rt; looks.orders_seen(), Some(u32::from(number) - 1));
            last = next;
        }
        learns.learn(shared.news(rt, &mut seat));
        assert!(rt; knows_each(&mut learns), "what was learnt");
        assert!(rt; knows_each(&mut looks), "what is seen");
        closed(rt, self.alloc, shared, seat);
    }
}

#[test]
fn observers_answer_of_a_thousand_orders(rt: HostRuntime) -> Result<(), Fail> {
    let alloc = rt.alloc();
    run_within(
        &rt,
        alloc,
        Limits::new(1, 1_023, 1_100, 16, 4_096),
        2,
        Many { alloc },
    );
    Ok(())
}
