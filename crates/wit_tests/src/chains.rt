//! A lock acquired twice and let go twice. What seats hold after their calls is told by the cases
//! of `tests/`.

use std::test::Fail;
use wit_held::{forget, oldest_held, record, record_new};
use wit_model::chunks::Lists;
use wit_model::{FileNo, Instance, Limits, LockNo, Mode, Site};
use wit_pool::Pool;

/// A lock that was acquired once, at the line of its number.
fn held(lock: u32) -> Instance {
    Instance {
        lock: LockNo(lock),
        mode: Mode::Exclusive,
        norelease: false,
        count: 0,
        site: Site {
            file: FileNo(1),
            line: lock,
        },
    }
}

/// Records an acquisition in a list of at most one lock; false where it may not be recorded or
/// finds no room.
fn acquire(lists: &mut Pool, list: u16, taken: Instance) -> bool {
    if list == 0 || list as usize > lists.lists() || lists.len(list) > 1 {
        return false;
    }
    match oldest_held(&*lists, list, taken.lock) {
        None => record_new(lists, list, taken),
        Some(held) => held.count < Limits::DEEPEST && record(lists, list, taken),
    }
}

/// Takes a release back in a list of at most one lock.
fn release(lists: &mut Pool, list: u16, lock: LockNo) {
    if list > 0 && list as usize <= lists.lists() && lists.len(list) <= 1 {
        forget(lists, list, lock);
    }
}

/// How the oldest lock of a list is held.
fn oldest(lists: &Pool, list: u16) -> Option<Instance> {
    if list == 0 || list as usize > lists.lists() || lists.len(list) == 0 {
        return None;
    }
    Some(lists.at(list, 0))
}

/// Whether a list that acquires a lock holds its oldest one so.
fn acquires(lists: &mut Pool, list: u16, taken: Instance, then: Instance) -> bool {
    acquire(lists, list, taken) && oldest(lists, list) == Some(then)
}

/// Whether a list that lets a lock go holds its oldest one so.
fn releases(lists: &mut Pool, list: u16, lock: u32, then: Option<Instance>) -> bool {
    release(lists, list, LockNo(lock));
    oldest(lists, list) == then
}

#[test]
fn acquired_twice(rt: HostRuntime) -> Result<(), Fail> {
    let mut lists = Pool::new(rt.alloc(), 1, 1)?;
    let first = held(7);
    let mut again = first;
    again.site.line = 9;
    let mut twice = again;
    twice.count = 1;
    assert!(rt; acquires(&mut lists, 1, first, first));
    assert!(rt; acquires(&mut lists, 1, again, twice));
    for (lock, then) in [(8, Some(twice)), (7, Some(again)), (7, None)] {
        assert!(rt; releases(&mut lists, 1, lock, then));
    }
    Ok(())
}
