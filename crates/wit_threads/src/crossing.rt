//! News of the adopted orders goes from one thread to another.

ghost use Rattle.std.specs.Prelude.{◌≡◌};

use crate::verifiers::{a_seat, mutex, opened};
use std::marker::Brand;
use std::process::Abort;
use std::sync::Wait;
use std::test::Fail;
use std::thread::{Threads, join};
use wit_model::{Limits, LockNo, Reply, TypeNo};
use wit_shared::{News, Observer, OpenedVerifier, Room, Seat, Shared};

/// Defines the order from one mutex to another, and has news of it.
fn adopt<J: Room, R: Wait + Abort>(
    rt: &R,
    shared: &Shared<J>,
    seat: &mut Seat<J>,
    first: LockNo,
    second: LockNo,
) -> News<J> {
    match shared.define_order(rt, seat, first, second) {
        Ok(Reply::Adopted(..)) => {}
        _ => panic!(rt; "not adopted"),
    }
    shared.news(rt, seat)
}

/// What an observer knows of the first two types, both ways, and how many orders it sees.
type Answers = (Option<bool>, Option<bool>, Option<u32>);

fn ask<J: Room>(mut observer: Observer<J>) -> Answers {
    let (there, back) = (TypeNo(1), TypeNo(2));
    (
        observer.known(there, back),
        observer.known(back, there),
        observer.orders_seen(),
    )
}

fn learn_and_ask<J: Room>(mut observer: Observer<J>, news: News<J>) -> Answers {
    observer.learn(news);
    ask(observer)
}

/// One thread adopts, two others ask: an observer that learns the news, and one that looks.
fn cross<J: Room + Send + Sync, R: Threads + Wait + Abort + Sync>(
    rt: &R,
    opened: OpenedVerifier,
) -> (Answers, Answers)
    requires { (opened.story.start ≡ J.start) × (opened.table ≡ J.table) × (opened.list ≡ J.list) }
{
    let (shared, mut observers) = match opened.named::<J, R>(rt, 2) {
        Ok(named) => named,
        Err(_) => panic!(rt; "no memory to share it"),
    };
    let learns = observers.pop().expect(rt, "an observer");
    let looks = observers.pop().expect(rt, "another observer");
    let mut seat = a_seat(rt, &shared);
    let first = mutex(rt, &shared, &mut seat, "A");
    let second = mutex(rt, &shared, &mut seat, "B");
    let watched = &shared;
    let (news, ()) = join(rt, || adopt(rt, watched, &mut seat, first, second), || ());
    let answers = join(rt, move || learn_and_ask(learns, news), move || ask(looks));
    seat.abandon();
    shared.abandon(rt);
    answers
}

#[test]
fn news_cross_to_another_thread(rt: HostRuntime) -> Result<(), Fail> {
    let opened = opened(&rt, rt.alloc(), Limits::new(1, 16, 64, 64, 4096));
    let (learnt, seen) = cross::<Brand, HostRuntime>(&rt, opened);
    assert_eq!(rt; learnt, (Some(true), Some(false), Some(1)));
    assert_eq!(rt; seen, (Some(true), Some(false), Some(1)));
    Ok(())
}
