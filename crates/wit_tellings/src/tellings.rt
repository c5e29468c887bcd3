//! All that was told.

ghost use Rattle.std.specs.Prelude.{◌≡◌, IfOk, OnOk};
ghost use Rattle.std.specs.Map.{lookup};
ghost use Rattle.std.specs.Option.{option_copied};
ghost use Rattle.wit_tellings.specs.Heard.{asking_after, ends_a_wait, heard, is_for_a_time, is_repeated, key_of, lacks};
ghost use Rattle.wit_tellings.specs.Heard.{lock_key, making_after, nothing_heard, same_key, with_asking, with_join, with_life};
ghost use Rattle.wit_tellings.specs.Heard.{with_lost, with_many, with_pair};

use crate::asking::Asking;
use indexmap::IndexMap;
use std::alloc::{AllocError, Global};
use wit_alarms::{Join, ThreadNo};
use wit_recorded::{How, Pair, PairLock};

/// A lock by its serial number, and whether it is had exclusively.
type LockKey = (u32, bool);

/// The held lock and the one that is asked for; whether the first was acquired under the second; and of
/// how that is asked for, whether it is for a time, again and again, or as a wait ends.
type Key = ((LockKey, LockKey), ((bool, bool), (bool, bool)));

/// How a thread was made.
#[derive(Clone, Copy, Debug, PartialEq, Eq, Hash)]
pub struct Making {
    /// The thread that made it; 0 where that isn't known.
    pub maker: u32,
    /// How many threads had been made and joined by then.
    pub made_at: u32,
    /// The kernel gave the number to a second thread, too.
    pub is_reused: bool,
}

/// What was told of single locks and of threads.
#[derive(Drop)]
pub struct Tellings {
    /// What is known of each two locks.
    pub asked: IndexMap<Key, Asking>,
    /// How each thread was made.
    pub lives: IndexMap<u32, Making>,
    /// Threads that were joined.
    pub joins: Vec<Join>,
    /// There may be two locks that aren't told of.
    pub many: bool,
    /// Calls weren't recorded, or what their thread held.
    pub lost: bool,
}

impl Tellings {
    /// Nothing yet.
    pub fn new(alloc: Global) -> Tellings
        ensures { heard result ≡ nothing_heard }
    {
        Tellings {
            asked: IndexMap::new(alloc),
            lives: IndexMap::new(alloc),
            joins: Vec::new(alloc),
            many: false,
            lost: false,
        }
    }

    /// Takes in that a thread asked for a lock while it held another one.
    ///
    /// # Errors
    /// Want of memory alone.
    pub fn add_pair(&mut self, alloc: Global, pair: Pair) -> Result<(), AllocError>
        ensures { OnOk result (heard self.new ≡ with_pair (heard self.old) pair) }
    {
        let key = key_of(&pair);
        let asking = asking_after(alloc, self.known(key), pair)?;
        self.put(key, asking)
    }

    // What is known of these two locks.
    fn known(&self, key: Key) -> Option<&Asking>
        ensures { option_copied result ≡ lookup (same_key key) (heard self.now).asked }
    {
        self.asked.get(&key)
    }

    fn put(&mut self, key: Key, asking: Asking) -> Result<(), AllocError>
        ensures { OnOk result (heard self.new ≡ with_asking (heard self.old) key asking) }
    {
        self.asked.insert(key, asking)?;
        Ok(())
    }

    /// Takes in that a thread was made by that one.
    ///
    /// # Errors
    /// Want of memory alone.
    pub fn add_life(&mut self, thread: u32, maker: u32, at: u32) -> Result<(), AllocError>
        ensures { OnOk result (heard self.new ≡ with_life (heard self.old) thread maker at) }
    {
        let making = making_after(self.lives.get(&thread).copied(), maker, at);
        self.lives.insert(thread, making)?;
        Ok(())
    }

    /// Takes in that a thread was joined by that one.
    ///
    /// # Errors
    /// Want of memory alone.
    pub fn add_join(&mut self, thread: u32, by: u32, at: u32) -> Result<(), AllocError>
        ensures { OnOk result (heard self.new ≡ with_join (heard self.old) thread by at) }
    {
        let (thread, by) = (ThreadNo(thread), ThreadNo(by));
        self.joins.push(Join { thread, by, at })?;
        Ok(())
    }

    /// There may be two locks that aren't told of.
    pub fn note_many(&mut self)
        ensures { heard self.new ≡ with_many (heard self.old) }
    {
        self.many = true;
    }

    /// Whether calls weren't recorded.
    pub fn note_lost(&mut self, lost: bool)
        ensures { heard self.new ≡ with_lost (heard self.old) lost }
    {
        self.lost = self.lost || lost;
    }

    /// Whether there may be more that threads did than was told.
    pub fn lacks(&self) -> bool
        ensures { result ≡ lacks (heard self.now) }
    {
        self.many || self.lost
    }
}

fn asking_after(alloc: Global, known: Option<&Asking>, pair: Pair) -> Result<Asking, AllocError>
    ensures { IfOk result (λ asking. asking ≡ asking_after (option_copied known.entry) pair) }
{
    match known {
        Some(before) => before.again(alloc, &pair),
        None => Ok(Asking::begun(pair)),
    }
}

fn key_of(pair: &Pair) -> Key
    ensures { result ≡ key_of pair.now }
{
    (
        (lock_key(pair.held), lock_key(pair.asked)),
        (
            (pair.under, is_for_a_time(pair.how)),
            (is_repeated(pair.how), ends_a_wait(pair.how)),
        ),
    )
}

fn lock_key(lock: PairLock) -> LockKey
    ensures { result ≡ lock_key lock }
{
    (lock.serial, lock.mode.is_exclusive())
}

fn is_for_a_time(how: How) -> bool
    ensures { result ≡ is_for_a_time how }
{
    matches!(how, How::ForATime)
}

fn is_repeated(how: How) -> bool
    ensures { result ≡ is_repeated how }
{
    matches!(how, How::Repeatedly)
}

fn ends_a_wait(how: How) -> bool
    ensures { result ≡ ends_a_wait how }
{
    matches!(how, How::AsAWaitEnds)
}

// A second making that differs is of another thread with the same number.
fn making_after(known: Option<Making>, maker: u32, at: u32) -> Making
    ensures { result ≡ making_after known maker at }
{
    match known {
        None => Making {
            maker,
            made_at: at,
            is_reused: false,
        },
        Some(known) => Making {
            is_reused: known.is_reused || !(known.maker == maker && known.made_at == at),
            ..known
        },
    }
}
