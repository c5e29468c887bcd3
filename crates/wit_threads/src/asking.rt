//! What a shared verifier is asked as it stands: for a circle, and for the text of a report.

ghost use Rattle.std.specs.Prelude.{◌≡◌, string_bytes, IfOk};
ghost use Rattle.wit_model.specs.Trace.Output.{reply_text};

use crate::verifiers::{a_seat, a_site, ask, mutex, run_within, take};
use std::alloc::Global;
use std::process::Abort;
use std::sync::Wait;
use std::test::Fail;
use wit_core::Verifier;
use wit_model::{Fault, Limits, Reply, SeatNo, Site};
use wit_report::report_text;
use wit_shared::{Look, Observer, Program, Room, Seat, Shared};

const REVERSAL: &str = "lock order reversal:
 1st \"b\" (b, sleep mutex) @ f:2
 2nd \"a\" (a, sleep mutex) @ f:4
established order:
 \"a\" -> \"b\" @ f:3
";

/// The text of a reply's report.
#[derive(Drop)]
struct Text<'a> {
    alloc: Global,
    reply: &'a Reply,
}

impl Look for Text<'_> {
    type Out = Result<String, Fault>;

    ghost done = { λ look text s. IfOk text (λ t. string_bytes t ≡ reply_text s look.reply.now) };

    fn look(self, verifier: &Verifier) -> Result<String, Fault> {
        report_text(self.alloc, verifier, self.reply)
    }
}

/// The seats that wait for one another.
fn circle<J: Room, R: Wait + Abort>(
    rt: &R,
    shared: &Shared<J>,
    seat: &mut Seat<J>,
) -> Option<Vec<SeatNo>> {
    shared.wait_circle(rt, seat).ok().expect(rt, "memory")
}

/// Each of two seats takes a mutex and asks for that of the other; what the last one is told.
fn cross<J: Room, R: Wait + Abort>(
    rt: &R,
    shared: &Shared<J>,
    one: &mut Seat<J>,
    two: &mut Seat<J>,
) -> Reply {
    let site = a_site(rt, shared, one);
    let a = mutex(rt, shared, one, "a");
    let b = mutex(rt, shared, one, "b");
    take(rt, shared, one, a, site);
    take(rt, shared, two, b, Site { line: 2, ..site });
    ask(rt, shared, one, b, Site { line: 3, ..site });
    assert!(rt; circle(rt, shared, two).is_none(), "one waits");
    ask(rt, shared, two, a, Site { line: 4, ..site })
}

/// Two seats ask for one another's mutexes.
#[derive(Drop)]
struct Crossed {
    alloc: Global,
}

impl<R: Wait + Abort> Program<R> for Crossed {
    type Out = ();

    ghost suits = { λ program start observers. Unit {0} };

    ghost done = { λ program out. Unit {0} };

    fn run<J: Room + Send + Sync>(self, rt: &R, shared: Shared<J>, _observers: Vec<Observer<J>>) {
        let mut one = a_seat(rt, &shared);
        let mut two = a_seat(rt, &shared);
        let reply = cross(rt, &shared, &mut one, &mut two);
        let waiting = circle(rt, &shared, &mut one).expect(rt, "a circle");
        assert_eq!(rt; waiting.as_slice(), [SeatNo(1), SeatNo(2)].as_slice());
        let alloc = self.alloc;
        let reply = &reply;
        let text = shared.look(rt, &mut two, Text { alloc, reply });
        assert_eq!(rt; text.ok().expect(rt, "memory").as_str(), REVERSAL);
        one.abandon();
        two.abandon();
        shared.abandon(rt);
    }
}

#[test]
fn circles_and_texts_while_it_is_shared(rt: HostRuntime) -> Result<(), Fail> {
    let alloc = rt.alloc();
    run_within(
        &rt,
        alloc,
        Limits::new(2, 4, 4, 16, 64),
        0,
        Crossed { alloc },
    );
    Ok(())
}
