//! Calls that are prepared, which no trace can tell of, and what is told of acquisitions.

ghost use Rattle.wit_model.specs.Rules.Preparing.{IsPreparable};

use std::alloc::Global;
use std::test::Fail;
use wit_core::{Attempt, Verifier};
use wit_model::{
    Call, Class, Fault, FileNo, Limits, LockFlags, LockNo, Mode, OpFlags, Reply, Request, SeatNo,
    Site, TypeNo, Watch,
};

/// A seat asks for a lock.
fn asking(lock: u32) -> Call
    ensures { IsPreparable result }
{
    Call::Check(Request {
        lock: LockNo(lock),
        site: Site {
            file: FileNo(1),
            line: lock,
        },
        mode: Mode::Exclusive,
        ops: OpFlags::NEWORDER,
    })
}

/// A verifier with three locks, each of a type of its own, of which seat 1 holds the first.
fn holding_one(alloc: Global) -> Result<Verifier, Fail> {
    let limits = Limits::new(2, 8, 16, 4, 64).ok_or("limits")?;
    let mut verifier = Verifier::new(alloc, limits, Vec::new(alloc), Vec::new(alloc))?;
    verifier.file("f")?;
    for name in ["a", "b", "c"] {
        verifier.init(
            SeatNo(1),
            name,
            None,
            Class::SleepMutex,
            LockFlags::RECURSABLE,
        )?;
    }
    take(&mut verifier, 1)?;
    Ok(verifier)
}

/// Seat 1 asks for a lock and acquires it.
fn take(verifier: &mut Verifier, lock: u32) -> Result<Reply, Fault> {
    verifier.call(SeatNo(1), asking(lock))?;
    verifier.note(SeatNo(1), LockNo(lock))
}

/// The types of the order that a reply adopts.
fn adopted(reply: Reply) -> Option<(TypeNo, TypeNo)> {
    match reply {
        Reply::Adopted(parent, child) => Some((parent, child)),
        _ => None,
    }
}

/// How many entries the log has, and how many orders there are.
fn sizes(verifier: &Verifier) -> (usize, usize) {
    (verifier.history().len(), verifier.orders().len())
}

#[test]
fn prepared_check(rt: HostRuntime) -> Result<(), Fail> {
    let mut verifier = holding_one(rt.alloc())?;
    let told = verifier.prepare(SeatNo(1), &asking(2))?;
    assert_eq!(rt; adopted(told), Some((TypeNo(1), TypeNo(2))));
    assert_eq!(rt; sizes(&verifier), (5, 0));
    let answer = verifier.call(SeatNo(1), asking(2))?;
    assert_eq!(rt; adopted(answer), Some((TypeNo(1), TypeNo(2))));
    assert_eq!(rt; sizes(&verifier), (6, 1));
    Ok(())
}

// The answer is the rules', whatever came between.
#[test]
fn another_call_between(rt: HostRuntime) -> Result<(), Fail> {
    let mut verifier = holding_one(rt.alloc())?;
    let told = verifier.prepare(SeatNo(1), &asking(2))?;
    assert_eq!(rt; adopted(told), Some((TypeNo(1), TypeNo(2))));
    verifier.define_order(SeatNo(2), LockNo(1), LockNo(2))?;
    let answer = verifier.call(SeatNo(1), asking(2))?;
    assert!(rt; matches!(answer, Reply::Pass));
    assert_eq!(rt; sizes(&verifier), (7, 1));
    Ok(())
}

#[test]
fn prepared_definition(rt: HostRuntime) -> Result<(), Fail> {
    let mut verifier = holding_one(rt.alloc())?;
    let call = Call::DefineOrder(LockNo(2), LockNo(3));
    let told = verifier.prepare(SeatNo(1), &call)?;
    assert_eq!(rt; adopted(told), Some((TypeNo(2), TypeNo(3))));
    let answer = verifier.define_order(SeatNo(1), LockNo(2), LockNo(3))?;
    assert_eq!(rt; adopted(answer), Some((TypeNo(2), TypeNo(3))));
    assert!(rt; matches!(verifier.prepare(SeatNo(2), &call)?, Reply::Known));
    verifier.set_watch(SeatNo(1), Watch::Off)?;
    assert!(rt; matches!(verifier.prepare(SeatNo(2), &call)?, Reply::Ignored));
    assert_eq!(rt; sizes(&verifier), (7, 1));
    Ok(())
}

// What teaches an order is prepared, and what teaches none is made at once.
#[test]
fn attempted(rt: HostRuntime) -> Result<(), Fail> {
    let mut verifier = holding_one(rt.alloc())?;
    let Attempt::Teaches(call, told) = verifier.attempt(SeatNo(1), asking(2))? else {
        return Err(Fail::from("made at once"));
    };
    assert_eq!(rt; adopted(told), Some((TypeNo(1), TypeNo(2))));
    assert_eq!(rt; sizes(&verifier), (5, 0));
    assert_eq!(rt;
        adopted(verifier.call(SeatNo(1), call)?),
        Some((TypeNo(1), TypeNo(2)))
    );
    assert_eq!(rt; sizes(&verifier), (6, 1));
    let known = verifier.attempt(SeatNo(2), Call::DefineOrder(LockNo(1), LockNo(2)))?;
    assert!(rt; matches!(known, Attempt::Made(Reply::Known)));
    let noted = verifier.attempt(SeatNo(1), Call::Note(LockNo(2)))?;
    assert!(rt; matches!(noted, Attempt::Made(Reply::Recorded)));
    verifier.unlock(SeatNo(1), LockNo(2), Mode::Exclusive)?;
    let again = verifier.attempt(SeatNo(1), asking(2))?;
    assert!(rt; matches!(again, Attempt::Made(Reply::Pass)));
    assert_eq!(rt; sizes(&verifier), (10, 1));
    Ok(())
}

#[test]
fn refused_preparation(rt: HostRuntime) -> Result<(), Fail> {
    let mut verifier = holding_one(rt.alloc())?;
    let fault = verifier.prepare(SeatNo(1), &asking(4)).err();
    assert_eq!(rt; fault, Some(Fault::UnknownLock));
    assert_eq!(rt; sizes(&verifier), (5, 0));
    Ok(())
}

#[test]
fn recorded(rt: HostRuntime) -> Result<(), Fail> {
    let mut verifier = holding_one(rt.alloc())?;
    for (seat, lock, count) in [(1, 1, Some(0)), (1, 2, None), (2, 1, None), (3, 1, None)] {
        assert_eq!(rt; verifier.recorded(SeatNo(seat), LockNo(lock)), count);
    }
    take(&mut verifier, 1)?;
    assert_eq!(rt; verifier.recorded(SeatNo(1), LockNo(1)), Some(1));
    Ok(())
}
