//! Calls that are refused leave a verifier as it was. A trace ends at the first one, so no case of
//! `tests/` shows it.

use crate::verifiers::{asks_for, check, counts_of, has, start, take};
use std::alloc::Global;
use std::test::Fail;
use wit_core::Verifier;
use wit_model::{Class, Fault, FileNo, LockFlags, LockNo, Mode, SeatNo, Site};

/// A verifier in which seat 1 holds a reader-writer lock, shared, and has made a mutex and a spin
/// lock.
fn shared_lock(alloc: Global) -> Result<Verifier, Fail> {
    let mut verifier = start(alloc, 64, ["A", "B"], ["C", "D"])??;
    verifier.file("f")?;
    for (name, class) in [
        ("r", Class::Rw),
        ("m", Class::SleepMutex),
        ("s", Class::SpinMutex),
    ] {
        verifier.init(SeatNo(1), name, None, class, LockFlags(0))?;
    }
    let site = Site {
        file: FileNo(1),
        line: 1,
    };
    verifier.note_try(SeatNo(1), LockNo(1), Mode::Shared, site)?;
    Ok(verifier)
}

/// Whether nothing has changed since seat 1 holds its lock.
fn is_as_before(verifier: &Verifier, history: usize) -> bool {
    counts_of(verifier).history == history
        && has(verifier, 1, 0, Some(1))
        && has(verifier, 1, 1, None)
        && asks_for(verifier, 1, None)
}

#[test]
fn refused_calls(rt: HostRuntime) -> Result<(), Fail> {
    let mut verifier = shared_lock(rt.alloc())?;
    let exclusive = check(&mut verifier, 1, 1, 2).err();
    assert_eq!(rt; exclusive, Some(Fault::ExclusiveOfShared));
    assert!(rt; is_as_before(&verifier, 4));
    let released = verifier.unlock(SeatNo(1), LockNo(1), Mode::Exclusive).err();
    assert_eq!(rt; released, Some(Fault::ExclusiveUnlock));
    assert!(rt; is_as_before(&verifier, 4));
    let nowhere = Site {
        file: FileNo(2),
        line: 1,
    };
    let unknown = verifier
        .note_try(SeatNo(1), LockNo(2), Mode::Exclusive, nowhere)
        .err();
    assert_eq!(rt; unknown, Some(Fault::UnknownFile));
    assert!(rt; is_as_before(&verifier, 4));
    Ok(())
}

#[test]
fn refused_under_spin(rt: HostRuntime) -> Result<(), Fail> {
    let mut verifier = shared_lock(rt.alloc())?;
    take(&mut verifier, 1, 3, 2)?;
    assert_eq!(rt;
        check(&mut verifier, 1, 2, 3).err(),
        Some(Fault::SleepUnderSpin)
    );
    assert!(rt; is_as_before(&verifier, 6));
    Ok(())
}
