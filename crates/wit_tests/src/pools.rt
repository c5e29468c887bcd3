//! The pool: full, in want of memory, and in a thread.

ghost use Rattle.wit_model.specs.Rules.Chunks.{IsList};

use linked_list_allocator::LocalHeap;
use std::alloc::{AllocError, Global};
use std::test::Fail;
use std::thread;
use wit_model::chunks::Lists;
use wit_model::{Fault, FileNo, Instance, LockNo, Mode, Site};
use wit_pool::Pool;

/// A lock that was acquired at the line of its number.
fn held(lock: u32) -> Instance {
    Instance {
        lock: LockNo(lock),
        mode: Mode::Exclusive,
        norelease: false,
        count: 0,
        site: Site {
            file: FileNo(1),
            line: lock,
        },
    }
}

/// What a list holds, chunk by chunk, newest chunk first.
#[derive(PartialEq, Eq, Drop)]
struct Contents {
    locks: Vec<Instance>,
    counts: Vec<usize>,
}

fn groups_of<L: Lists>(alloc: Global, lists: &L, list: u16) -> Result<Contents, AllocError>
    requires { IsList (L.chunks lists.now) list }
{
    let mut locks = Vec::new(alloc);
    let mut counts = Vec::new(alloc);
    let mut spot = lists.newest(list);
    while let Some(at) = spot {
        let chunk = lists.group(list, at);
        locks.extend_from_slice(chunk)?;
        counts.push(chunk.len())?;
        spot = lists.older(list, at);
    }
    Ok(Contents { locks, counts })
}

/// Puts so many locks into each of 512 lists: false where one isn't taken.
fn fills(pool: &mut Pool, count: u32) -> bool {
    for list in 1..513 {
        for lock in 0..count {
            if list as usize > pool.lists() || !pool.push(list, held(lock)) {
                return false;
            }
        }
    }
    true
}

#[test]
fn last_chunk(rt: HostRuntime) -> Result<(), Fail> {
    let alloc = rt.alloc();
    let mut pool = Pool::new(alloc, 65_536, 512)?;
    assert_eq!(rt; pool.free_chunks(), 65_536);
    assert!(rt; fills(&mut pool, 640));
    assert_eq!(rt; pool.free_chunks(), 0);
    for list in 1..513 {
        assert!(rt; list as usize <= pool.lists());
        let before = groups_of(alloc, &pool, list)?;
        assert_eq!(rt; before.counts.len(), 128);
        assert!(rt; !pool.push(list, held(9)));
        assert!(rt; list as usize <= pool.lists());
        assert!(rt; groups_of(alloc, &pool, list)? == before);
        assert_eq!(rt; pool.free_chunks(), 0);
    }
    Ok(())
}

/// Whether a pool that finds room in a heap takes a lock.
fn is_made_in(heap: &LocalHeap) -> Result<bool, Fault> {
    let mut pool = Pool::new(heap, 4, 4)?;
    Ok(pool.push(4, held(1)) && pool.free_chunks() == 3)
}

// The heap grows by its least block, so that each growth of `new` is the first to be refused at one
// of the sizes. What was taken is given back, whether or not the pool was made.
#[test]
fn want_of_memory(rt: HostRuntime) -> Result<(), Fail> {
    let mut made = false;
    for blocks in 0..64 {
        let heap = LocalHeap::new(rt.alloc(), blocks * 16)?;
        let told = is_made_in(&heap);
        made = made || told.is_ok();
        let expected = if made {
            Ok(true)
        } else {
            Err(Fault::OutOfMemory)
        };
        assert_eq!(rt; told, expected, "in {blocks} blocks");
        assert_eq!(rt; heap.used(), 0, "in {blocks} blocks");
    }
    assert!(rt; made);
    Ok(())
}

/// What a pool that holds a lock in its first list has, after one more.
fn after_one_more(mut pool: Pool) -> (usize, usize) {
    if pool.lists() == 0 || !pool.push(1, held(8)) || pool.lists() == 0 {
        return (0, pool.free_chunks());
    }
    (pool.len(1), pool.free_chunks())
}

#[test]
fn in_another_thread(rt: HostRuntime) -> Result<(), Fail> {
    let mut pool = Pool::new(rt.alloc(), 3, 2)?;
    assert!(rt; pool.lists() == 2);
    assert!(rt; pool.push(1, held(7)));
    let worker = thread::spawn(&rt, move || after_one_more(pool))?;
    assert_eq!(rt; worker.join(&rt), (2, 2));
    Ok(())
}
