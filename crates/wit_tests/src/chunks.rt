//! What lists hold and which chunks are free, by the rules: chunks of five, a list keeps its only
//! chunk, and an older chunk is never filled up.

use std::test::Fail;
use wit_model::chunks::Lists;
use wit_model::{FileNo, Instance, LockNo, Mode, Site};
use wit_pool::Pool;

fn held(lock: u32, count: u16) -> Instance {
    Instance {
        lock: LockNo(lock),
        mode: Mode::Exclusive,
        norelease: false,
        count,
        site: Site {
            file: FileNo(1),
            line: lock,
        },
    }
}

/// Puts a lock at the end of a list: false where there is no such list or no room.
fn push(lists: &mut Pool, list: u16, lock: u32) -> bool {
    list > 0 && list as usize <= lists.lists() && lists.push(list, held(lock, 0))
}

/// Takes the lock at a place out: false where there is none.
fn remove(lists: &mut Pool, list: u16, place: usize) -> bool {
    if list == 0 || list as usize > lists.lists() || place >= lists.len(list) {
        return false;
    }
    lists.remove(list, place);
    true
}

/// Whether a list holds just these locks, oldest first.
fn holds(lists: &Pool, list: u16, locks: &[u32]) -> bool {
    if list == 0 || list as usize > lists.lists() || lists.len(list) != locks.len() {
        return false;
    }
    for place in 0..locks.len() {
        if lists.at(list, place).lock.0 != locks[place] {
            return false;
        }
    }
    true
}

#[test]
fn three_chunks(rt: HostRuntime) -> Result<(), Fail> {
    let mut lists = Pool::new(rt.alloc(), 3, 2)?;
    for (lock, free) in [
        (1, 2),
        (2, 2),
        (3, 2),
        (4, 2),
        (5, 2),
        (6, 1),
        (7, 1),
        (8, 1),
        (9, 1),
        (10, 1),
    ] {
        assert!(rt; push(&mut lists, 1, lock));
        assert_eq!(rt; lists.free_chunks(), free, "after lock {lock}");
    }
    assert!(rt; push(&mut lists, 2, 21));
    assert_eq!(rt; lists.free_chunks(), 0);
    assert!(rt; !push(&mut lists, 1, 11));
    assert!(rt; holds(&lists, 1, &[1, 2, 3, 4, 5, 6, 7, 8, 9, 10]));
    // Room in an older chunk is no room.
    assert!(rt; remove(&mut lists, 1, 2));
    assert!(rt; !push(&mut lists, 1, 11));
    assert!(rt; holds(&lists, 1, &[1, 2, 4, 5, 6, 7, 8, 9, 10]));
    // The emptied chunk is the other list's next one.
    for free in [0, 0, 0, 1] {
        assert!(rt; remove(&mut lists, 1, 0));
        assert_eq!(rt; lists.free_chunks(), free);
    }
    assert!(rt; holds(&lists, 1, &[6, 7, 8, 9, 10]));
    // A list keeps its only chunk.
    assert!(rt; remove(&mut lists, 2, 0));
    assert!(rt; holds(&lists, 2, &[]));
    assert_eq!(rt; lists.free_chunks(), 1);
    assert!(rt; push(&mut lists, 1, 11));
    assert!(rt; push(&mut lists, 2, 22));
    assert_eq!(rt; lists.free_chunks(), 0);
    assert!(rt; holds(&lists, 1, &[6, 7, 8, 9, 10, 11]));
    assert!(rt; holds(&lists, 2, &[22]));
    Ok(())
}

#[test]
fn chunk_between_others(rt: HostRuntime) -> Result<(), Fail> {
    let mut lists = Pool::new(rt.alloc(), 3, 1)?;
    for lock in 1..12 {
        assert!(rt; push(&mut lists, 1, lock));
    }
    if lists.lists() < 1 || lists.len(1) < 9 {
        assert!(rt; false);
        return Ok(());
    }
    lists.replace(1, 8, held(99, 1));
    assert_eq!(rt; lists.find(1, LockNo(99)), Some(8));
    assert_eq!(rt; lists.find(1, LockNo(9)), None);
    for free in [0, 0, 0, 0, 1] {
        assert!(rt; remove(&mut lists, 1, 5));
        assert_eq!(rt; lists.free_chunks(), free);
    }
    assert!(rt; holds(&lists, 1, &[1, 2, 3, 4, 5, 11]));
    assert!(rt; remove(&mut lists, 1, 5));
    assert_eq!(rt; lists.free_chunks(), 2);
    assert!(rt; holds(&lists, 1, &[1, 2, 3, 4, 5]));
    Ok(())
}
