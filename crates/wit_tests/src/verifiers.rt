//! What no trace shows of a verifier: a log that is full, lists that no line can spell, and what it
//! tells of itself. Calls and their answers are cases of `tests/`.

use std::alloc::{AllocError, Global};
use std::test::Fail;
use wit_core::{StartError, Verifier};
use wit_model::{
    Class, Fault, FileNo, Limits, LockFlags, LockNo, Mode, OpFlags, Origin, Reply, SeatNo, Site,
    TypeNo, Watch,
};

/// How much a verifier has.
#[derive(Clone, Copy, Debug, PartialEq, Eq)]
pub struct Counts {
    pub history: usize,
    orders: usize,
    reports: u32,
    free_chunks: usize,
}

/// What is told of the lock, the type and the file with one number.
#[derive(Clone, Copy, Debug, PartialEq, Eq)]
struct Facts {
    lock_type: Option<TypeNo>,
    class: Option<Class>,
    live: Option<u32>,
    lengths: (Option<usize>, Option<usize>, Option<usize>),
}

/// A static list of two mutexes.
fn list_of(alloc: Global, names: [&str; 2]) -> Result<Vec<(Class, String)>, AllocError> {
    let mut mutexes = Vec::new(alloc);
    for name in names {
        let name = String::from_str(alloc, name)?;
        mutexes.push((Class::SleepMutex, name))?;
    }
    Ok(mutexes)
}

/// A verifier for two seats and a log of so many entries, with a static list of two mutexes and a
/// blessed pair.
pub fn start(
    alloc: Global,
    log: u32,
    names: [&str; 2],
    blessed: [&str; 2],
) -> Result<Result<Verifier, StartError>, Fail> {
    let limits = Limits::new(2, 8, 16, 4, log).ok_or("limits")?;
    let mut lists = Vec::new(alloc);
    lists.push(list_of(alloc, names)?)?;
    let [first, second] = blessed;
    let mut pairs = Vec::new(alloc);
    pairs.push((
        String::from_str(alloc, first)?,
        String::from_str(alloc, second)?,
    ))?;
    Ok(Verifier::new(alloc, limits, lists, pairs))
}

/// Makes a mutex.
pub fn make(verifier: &mut Verifier, name: &str, type_name: Option<&str>) -> Result<LockNo, Fault> {
    verifier.init(SeatNo(1), name, type_name, Class::SleepMutex, LockFlags(0))
}

pub fn check(verifier: &mut Verifier, seat: u16, lock: u32, line: u32) -> Result<Reply, Fault> {
    let site = Site {
        file: FileNo(1),
        line,
    };
    let ops = OpFlags::NEWORDER;
    verifier.check(SeatNo(seat), LockNo(lock), Mode::Exclusive, ops, site)
}

/// Checks and notes an acquisition.
pub fn take(verifier: &mut Verifier, seat: u16, lock: u32, line: u32) -> Result<Reply, Fault> {
    check(verifier, seat, lock, line)?;
    verifier.note(SeatNo(seat), LockNo(lock))
}

fn destroy(verifier: &mut Verifier, lock: u32) -> Result<Reply, Fault> {
    verifier.destroy(SeatNo(1), LockNo(lock))
}

/// How many locks a type has that aren't destroyed.
fn live(verifier: &Verifier, of_type: u16) -> Option<u32> {
    verifier.live(TypeNo(of_type))
}

pub fn counts_of(verifier: &Verifier) -> Counts {
    Counts {
        history: verifier.history().len(),
        orders: verifier.orders().len(),
        reports: verifier.reports(),
        free_chunks: verifier.free_chunks(),
    }
}

fn facts_of(verifier: &Verifier, number: u16) -> Facts {
    let lock = LockNo(u32::from(number));
    Facts {
        lock_type: verifier.type_of(lock),
        class: verifier.class_of(TypeNo(number)),
        live: live(verifier, number),
        lengths: (
            verifier.lock_name(lock).map(|n| n.len()),
            verifier.type_name(TypeNo(number)).map(|n| n.len()),
            verifier.file_name(FileNo(number)).map(|n| n.len()),
        ),
    }
}

/// Whether one type is related to another by these bits, and their order has this origin.
fn is_related(
    verifier: &Verifier,
    (parent, child): (u16, u16),
    bits: u8,
    origin: Option<Origin>,
) -> bool {
    let (parent, child) = (TypeNo(parent), TypeNo(child));
    verifier.relation(parent, child) == Some(bits) && verifier.origin(parent, child) == origin
}

/// Whether a place of a seat's sleep locks has this lock, or none.
pub fn has(verifier: &Verifier, seat: u16, place: usize, lock: Option<u32>) -> bool {
    let held = verifier.chain_at(SeatNo(seat), false, place);
    held.map(|h| h.lock.0) == lock
}

/// Whether a seat asks for this lock exclusively, or for none.
pub fn asks_for(verifier: &Verifier, seat: u16, lock: Option<u32>) -> bool {
    verifier.pending(SeatNo(seat)) == lock.map(|l| (LockNo(l), Mode::Exclusive))
}

/// Whether these types are the path from the first to the last.
fn is_path(verifier: &Verifier, way: [TypeNo; 2]) -> Result<bool, Fault> {
    let told = verifier.path(way[0], way[1])?;
    Ok(told.is_some_and(|t| t.as_slice() == way.as_slice()))
}

// A log of five entries, of which a lock that is held needs one for its release.
#[test]
fn full_log(rt: HostRuntime) -> Result<(), Fail> {
    let mut verifier = start(rt.alloc(), 5, ["A", "B"], ["C", "D"])??;
    verifier.file("f")?;
    assert_eq!(rt; make(&mut verifier, "a", None), Ok(LockNo(1)));
    take(&mut verifier, 1, 1, 1)?;
    assert_eq!(rt; make(&mut verifier, "b", None), Ok(LockNo(2)));
    assert_eq!(rt; make(&mut verifier, "c", None), Err(Fault::LogFull));
    assert_eq!(rt; counts_of(&verifier).history, 4);
    verifier.unlock(SeatNo(1), LockNo(1), Mode::Exclusive)?;
    assert_eq!(rt; make(&mut verifier, "c", None), Err(Fault::LogFull));
    assert_eq!(rt; counts_of(&verifier).history, 5);
    Ok(())
}

// Types that may be taken in either order, and are.
#[test]
fn blessed_pair(rt: HostRuntime) -> Result<(), Fail> {
    let mut verifier = start(rt.alloc(), 64, ["A", "B"], ["A", "B"])??;
    verifier.file("f")?;
    make(&mut verifier, "a", Some("A"))?;
    make(&mut verifier, "b", Some("B"))?;
    take(&mut verifier, 1, 2, 1)?;
    check(&mut verifier, 1, 1, 2)?;
    assert_eq!(rt; counts_of(&verifier).reports, 0);
    assert!(rt; is_related(&verifier, (1, 2), 0x13, Some(Origin::Listed)));
    assert!(rt; is_related(&verifier, (2, 1), 0x1c, None));
    Ok(())
}

/// A verifier in which seat 1 holds a lock of each of two types in their listed order, and seat 2
/// asks for the first.
pub fn asked_and_held(alloc: Global) -> Result<Verifier, Fail> {
    let mut verifier = start(alloc, 64, ["AB", "CDE"], ["AB", "F"])??;
    verifier.file("long.c")?;
    make(&mut verifier, "a", Some("AB"))?;
    make(&mut verifier, "b", Some("CDE"))?;
    take(&mut verifier, 1, 1, 1)?;
    take(&mut verifier, 1, 2, 2)?;
    check(&mut verifier, 2, 1, 3)?;
    Ok(verifier)
}

#[test]
fn locks_and_requests(rt: HostRuntime) -> Result<(), Fail> {
    let verifier = asked_and_held(rt.alloc())?;
    let counts = Counts {
        history: 7,
        orders: 1,
        reports: 0,
        free_chunks: 3,
    };
    assert_eq!(rt; counts_of(&verifier), counts);
    assert_eq!(rt; verifier.watch(), Watch::On);
    assert!(rt; asks_for(&verifier, 2, Some(1)) && asks_for(&verifier, 1, None));
    for (place, lock) in [(0, Some(1)), (1, Some(2)), (2, None)] {
        assert!(rt; has(&verifier, 1, place, lock), "at {place}");
    }
    Ok(())
}

#[test]
fn orders(rt: HostRuntime) -> Result<(), Fail> {
    let verifier = asked_and_held(rt.alloc())?;
    // Parent and ancestor, child and descendant.
    assert!(rt; is_related(&verifier, (1, 2), 0x03, Some(Origin::Listed)));
    assert!(rt; is_related(&verifier, (2, 1), 0x0c, None));
    assert!(rt; is_path(&verifier, [TypeNo(1), TypeNo(2)])?);
    Ok(())
}

#[test]
fn numbers(rt: HostRuntime) -> Result<(), Fail> {
    let verifier = asked_and_held(rt.alloc())?;
    let mutex = Some(Class::SleepMutex);
    let none = Facts {
        lock_type: None,
        class: None,
        live: None,
        lengths: (None, None, None),
    };
    let first = Facts {
        lock_type: Some(TypeNo(1)),
        class: mutex,
        live: Some(1),
        lengths: (Some(1), Some(2), Some(6)),
    };
    let second = Facts {
        lock_type: Some(TypeNo(2)),
        class: mutex,
        live: Some(1),
        lengths: (Some(1), Some(3), None),
    };
    for (number, expected) in [(0, none), (1, first), (2, second), (3, none)] {
        assert_eq!(rt; facts_of(&verifier, number), expected);
    }
    Ok(())
}

// Names that no line of a trace can have, and a list that is refused.
#[test]
fn refused_starts(rt: HostRuntime) -> Result<(), Fail> {
    for (names, blessed, refused) in [
        (["A", "B"], ["C", "D"], None),
        (["A", ""], ["C", "D"], Some((1, Fault::BadName))),
        (["A", "\""], ["C", "D"], Some((1, Fault::BadName))),
        (["A", "A"], ["C", "D"], Some((1, Fault::SameType))),
        (["A", "B"], ["C", ""], Some((0, Fault::BadName))),
    ] {
        let error = start(rt.alloc(), 64, names, blessed)?.err();
        let told = error.map(|e| (e.list, e.fault));
        assert_eq!(rt; told, refused);
    }
    Ok(())
}

// Names that no line of a trace can have, and a lock that is destroyed.
#[test]
fn names_of_locks(rt: HostRuntime) -> Result<(), Fail> {
    let mut verifier = start(rt.alloc(), 64, ["A", "B"], ["C", "D"])??;
    for (name, type_name, answer) in [
        ("", None, Err(Fault::BadName)),
        ("\"", Some("A"), Err(Fault::BadName)),
        ("a", Some(""), Err(Fault::BadName)),
        ("a", Some("A"), Ok(LockNo(1))),
        ("b", Some("A"), Ok(LockNo(2))),
    ] {
        assert_eq!(rt; make(&mut verifier, name, type_name), answer, "of {name}");
    }
    destroy(&mut verifier, 1)?;
    assert_eq!(rt; live(&verifier, 1), Some(1));
    Ok(())
}
