//! What a thread asks its observer, and the verifier.

ghost use Rattle.std.specs.Prelude.{◌≡◌};

use crate::worker::{Place, Worker, count};
use std::sync::Wait;
use wit_model::TypeNo;
use wit_shared::Room;

/// An order that a call of the thread adopted is known from then on.
pub(crate) fn learn<J: Room, R: Wait>(
    place: &Place<J, R>,
    worker: &mut Worker<J>,
    parent: TypeNo,
    child: TypeNo,
)
    ensures { worker.new.seat.seat ≡ worker.old.seat.seat }
{
    let news = place.shared.news(place.rt, &mut worker.seat);
    count(&mut worker.tally.questions.news);
    worker.observer.learn(news);
    match worker.observer.known(parent, child) {
        Some(true) => {}
        Some(false) => worker.tally.blame("an order that was adopted isn't known"),
        None => worker.tally.blame("an observer doesn't answer"),
    }
}

/// And so is each of several that it adopted at once.
pub(crate) fn learn_all<J: Room, R: Wait>(
    place: &Place<J, R>,
    worker: &mut Worker<J>,
    pairs: &[(TypeNo, TypeNo)],
)
    ensures { worker.new.seat.seat ≡ worker.old.seat.seat }
{
    for pair in pairs {
        learn(place, worker, pair.0, pair.1);
    }
}

/// Looks at how many orders there are: never fewer than before.
pub(crate) fn look<J: Room>(worker: &mut Worker<J>)
    ensures { worker.new.seat ≡ worker.old.seat }
{
    match worker.observer.orders_seen() {
        Some(orders) => {
            if orders < worker.tally.orders {
                worker.tally.blame("an observer went back");
            }
            worker.tally.orders = orders;
        }
        None => worker.tally.blame("an observer doesn't answer"),
    }
}

/// Names the file of its places.
pub(crate) fn name_file<J: Room, R: Wait>(place: &Place<J, R>, worker: &mut Worker<J>) {
    match place.shared.file(place.rt, &mut worker.seat, "soak") {
        Ok(file) => {
            count(&mut worker.tally.questions.file);
            worker.file = file;
        }
        Err(fault) => worker.tally.refuse(fault),
    }
}

/// No threads wait for one another.
pub(crate) fn circle<J: Room, R: Wait>(place: &Place<J, R>, worker: &mut Worker<J>) {
    match place.shared.wait_circle(place.rt, &mut worker.seat) {
        Ok(None) => count(&mut worker.tally.questions.wait_circle),
        Ok(Some(_seats)) => worker
            .tally
            .blame("threads are said to wait for one another"),
        Err(fault) => worker.tally.refuse(fault),
    }
}
