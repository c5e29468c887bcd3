//! What threads do at a gate, and how they learn of one another.

use crate::{Gate, WaitGate, Waiting};
use std::rt::Clock;
use std::sync::Wait;
use std::sync::atomic::{AtomicBool, AtomicU64, Ordering};
use std::thread;
use std::time::Duration;
use wit_model::Mode;

/// What threads do while they have a gate alone.
#[derive(Drop)]
pub(crate) struct Visits {
    taken: AtomicBool,
    pub(crate) done: AtomicU64,
}

impl Visits {
    /// None yet.
    pub(crate) fn new() -> Visits {
        Visits {
            taken: AtomicBool::new(false),
            done: AtomicU64::new(0),
        }
    }

    /// Counts one. False where somebody else was in meanwhile.
    fn visit(&self) -> bool {
        let alone = !self.taken.swap(true, Ordering::SeqCst);
        let before = self.done.load(Ordering::SeqCst);
        self.done.store(before.wrapping_add(1), Ordering::SeqCst);
        self.taken.store(false, Ordering::SeqCst);
        alone
    }
}

/// Looks whether something has come about, for up to 10 seconds.
pub(crate) fn comes_about<R: Clock>(rt: &R, count: &AtomicU64, wanted: u64) -> bool {
    for _ in 0..1000 {
        if count.load(Ordering::SeqCst) >= wanted {
            return true;
        }
        thread::sleep(rt, Duration::from_millis(10));
    }
    false
}

/// A gate that can be waited for with no seat.
pub(crate) trait Visited {
    /// Has the gate alone for a visit. False where somebody else was in, or nobody was let in.
    fn visit_alone<R: Wait>(&self, rt: &R, visits: &Visits) -> bool;

    /// Shares the gate until so many do, which are counted. False where they don't come, or nobody
    /// was let in.
    fn meet<R: Wait + Clock>(&self, rt: &R, inside: &AtomicU64, count: u64) -> bool;
}

impl<W: Waiting> Visited for WaitGate<W> {
    fn visit_alone<R: Wait>(&self, rt: &R, visits: &Visits) -> bool {
        match self.enter(rt, Mode::Exclusive) {
            Ok(ticket) => {
                let alone = visits.visit();
                self.release(rt, Mode::Exclusive, ticket);
                alone
            }
            Err(_met) => false,
        }
    }

    fn meet<R: Wait + Clock>(&self, rt: &R, inside: &AtomicU64, count: u64) -> bool {
        match self.enter(rt, Mode::Shared) {
            Ok(share) => {
                inside.fetch_add(1, Ordering::SeqCst);
                let met = comes_about(rt, inside, count);
                self.release(rt, Mode::Shared, share);
                met
            }
            Err(_met) => false,
        }
    }
}
