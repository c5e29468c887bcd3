//! A verifier that compares a request with all locks that its seat holds, and what it learns behind
//! them.

use crate::verifiers::{check, make, take};
use std::test::Fail;
use wit_core::Verifier;
use wit_model::{FileNo, Limits, LockNo, Mode, Reply, SeatNo, Site, TypeNo};

/// The orders that a reply teaches behind all held locks.
fn learnt(reply: &Reply) -> &[(TypeNo, TypeNo)] {
    match reply {
        Reply::AdoptedAll(orders) => orders.get().pairs(),
        _ => &[],
    }
}

#[test]
fn learns_behind_all_held_locks(rt: HostRuntime) -> Result<(), Fail> {
    let alloc = rt.alloc();
    let limits = Limits::new(2, 8, 16, 4, 64).ok_or("limits")?;
    let mut verifier = Verifier::new_all_held(alloc, limits, Vec::new(alloc), Vec::new(alloc))?;
    verifier.file("f")?;
    for name in ["A", "B", "C"] {
        make(&mut verifier, name, None)?;
    }
    take(&mut verifier, 1, 2, 1)?;
    let site = Site {
        file: FileNo(1),
        line: 2,
    };
    verifier.note_try(SeatNo(1), LockNo(1), Mode::Exclusive, site)?;
    let reply = check(&mut verifier, 1, 3, 3)?;
    assert_eq!(rt; learnt(&reply).len(), 2);
    assert_eq!(rt;
        learnt(&reply).first().copied(),
        Some((TypeNo(1), TypeNo(3)))
    );
    assert_eq!(rt;
        learnt(&reply).last().copied(),
        Some((TypeNo(2), TypeNo(3)))
    );
    assert_eq!(rt; verifier.orders().len(), 2);
    Ok(())
}
