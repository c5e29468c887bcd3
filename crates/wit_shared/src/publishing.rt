//! What a call teaches is published before the call is made.

ghost use Rattle.std.specs.Prelude.{◌≡◌, ◌≢◌, ◌++◌, [], ◌∷◌, Ok, IfOk, OnOk, OnErr, map, reverse};
ghost use Rattle.wit_model.specs.Rules.Orders.{AreDistinct, adopted, taught_at};
ghost use Rattle.wit_model.specs.Rules.Preparing.{IsPreparable, IsPrepared};
ghost use Rattle.wit_model.specs.Rules.State.{orders_of};
ghost use Rattle.wit_model.specs.Rules.Step.{AnswersOrFails, answer_of};
ghost use Rattle.wit_matrix.specs.Relation.{OrdersAmong};
ghost use Rattle.wit_shared.specs.Publishing.{published, Makes};

use std::alloc::{AllocError, Global};
use std::sync::Wait;
use wit_adoptions::Naming;
use wit_core::{Attempt, Verifier};
use wit_model::{Adoption, Call, Fault, Origin, Reply, SeatNo, Site, TypeNo};
use wit_observers::Publisher;

// One order.
fn order(
    alloc: Global,
    parent: TypeNo,
    child: TypeNo,
    origin: Origin,
) -> Result<Vec<Adoption>, AllocError>
    ensures { IfOk result (λ v. v.items
        ≡ record { parent = parent; child = child; origin = origin } ∷ []) }
{
    let order = Adoption {
        parent,
        child,
        origin,
    };
    Vec::from_slice(alloc, &[order])
}

// These orders, which a request at one place teaches, oldest first.
fn orders(
    alloc: Global,
    pairs: &[(TypeNo, TypeNo)],
    site: Site,
) -> Result<Vec<Adoption>, AllocError>
    ensures { IfOk result (λ v. v.items ≡ map (taught_at site) pairs.now) }
{
    let mut orders = Vec::with_capacity(alloc, pairs.len())?;
    for pair in pairs {
        orders.push(Adoption {
            parent: pair.0,
            child: pair.1,
            origin: Origin::At(site),
        })?;
    }
    Ok(orders)
}

// The orders that a call with this reply teaches, oldest first.
fn taught(alloc: Global, call: &Call, reply: &Reply) -> Result<Vec<Adoption>, AllocError>
    ensures { IfOk result (λ v. v.items ≡ reverse (adopted call.now reply.now)) }
{
    match call {
        Call::Check(request) => match reply {
            Reply::Adopted(parent, child) => {
                order(alloc, *parent, *child, Origin::At(request.site))
            }
            Reply::AdoptedAll(list) => orders(alloc, list.get().pairs(), request.site),
            _ => Ok(Vec::new(alloc)),
        },
        Call::DefineOrder(..) => match reply {
            Reply::Adopted(parent, child) => order(alloc, *parent, *child, Origin::Defined),
            _ => Ok(Vec::new(alloc)),
        },
        _ => Ok(Vec::new(alloc)),
    }
}

// Publishes the orders that a call with this reply teaches, which is prepared.
//
// Errors: want of memory alone; then nothing has changed.
fn announce<J: Naming, R: Wait>(
    rt: &R,
    alloc: Global,
    verifier: &Verifier,
    publisher: &mut Publisher<J>,
    call: &Call,
    reply: &Reply,
) -> Result<(), AllocError>
    requires published { publisher.old ≡ published verifier.now }
    requires among { OrdersAmong verifier.now.start.sizes.types
        (adopted call.now reply.now ++ orders_of verifier.now.start verifier.now.history) }
    requires distinct { AreDistinct
        (adopted call.now reply.now ++ orders_of verifier.now.start verifier.now.history) }
    ensures more { OnOk result (publisher.new ≡ record publisher.old {
      orders = publisher.old.orders ++ reverse (adopted call.now reply.now);
    }) }
    ensures kept { OnErr result (publisher.new ≡ publisher.old) }
{
    // Called for its clause that there can't be too many orders.
    let _most = verifier.most_types();
    let orders = taught(alloc, call, reply)?;
    publisher.publish(rt, &orders)
}

// Publishes the orders that a call with this reply teaches, which is prepared; then makes it.
//
// Errors: want of memory alone, before anything has changed.
fn teach<J: Naming, R: Wait>(
    rt: &R,
    alloc: Global,
    verifier: &mut Verifier,
    publisher: &mut Publisher<J>,
    seat: SeatNo,
    call: Call,
    reply: &Reply,
) -> Result<Reply, Fault>
    requires published { publisher.old ≡ published verifier.old }
    requires teaches { adopted call reply.now ≢ [] }
    requires may { IsPreparable call }
    requires prepared { IsPrepared verifier.old seat.0 call }
    requires answer { answer_of verifier.old seat.0 call ≡ Ok reply.now }
    requires among { OrdersAmong verifier.old.start.sizes.types
        (adopted call reply.now ++ orders_of verifier.old.start verifier.old.history) }
    requires distinct { AreDistinct
        (adopted call reply.now ++ orders_of verifier.old.start verifier.old.history) }
    ensures published { publisher.new ≡ published verifier.new }
    ensures made { AnswersOrFails verifier.old seat.0 call result verifier.new }
{
    announce(rt, alloc, verifier, publisher, &call, reply)?;
    verifier.call(seat, call)
}

/// Makes a logged call, whichever it is. Where it adopts orders, they are published first. So it is
/// refused for want of memory before anything has changed.
pub(crate) fn make<J: Naming, R: Wait>(
    rt: &R,
    alloc: Global,
    verifier: &mut Verifier,
    publisher: &mut Publisher<J>,
    seat: SeatNo,
    call: Call,
) -> Result<Reply, Fault>
    requires { publisher.old ≡ published verifier.old }
    ensures published { publisher.new ≡ published verifier.new }
    ensures made { Makes verifier.old seat.0 call result verifier.new }
{
    match verifier.attempt(seat, call) {
        Ok(Attempt::Made(reply)) => Ok(reply),
        Ok(Attempt::Teaches(call, reply)) => {
            teach(rt, alloc, verifier, publisher, seat, call, &reply)
        }
        Err(fault) => Err(fault),
    }
}
