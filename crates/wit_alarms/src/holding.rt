//! Which facts can be held at once by two threads, and which of them waits for the other.

ghost use Rattle.std.specs.Prelude.{◌≡◌};
ghost use Rattle.std.specs.List.{list_any};
ghost use Rattle.wit_alarms.specs.Facts.{excludes, has_gate, can_meet, is_exclusively};
ghost use Rattle.wit_alarms.specs.Facts.{is_kept_out, can_wait, is_timed, is_wait_end, locks_held};

use crate::facts::{Fact, Had, Lives, Manner, Reasons, Single};
use crate::lives::{are_apart, are_two};

impl Had {
    /// Whether no two threads have these at once: one lock, which one of them doesn't share.
    pub fn excludes(&self, other: &Had) -> bool
        ensures { result ≡ excludes self.now other.now }
    {
        self.lock == other.lock && (self.mode.is_exclusive() || other.mode.is_exclusive())
    }
}

impl Manner {
    /// Whether it is with a time limit.
    pub fn is_timed(self) -> bool
        ensures { result ≡ is_timed self }
    {
        matches!(self, Manner::Timed)
    }

    /// Whether it is as a wait for a condition ends.
    pub fn is_wait_end(self) -> bool
        ensures { result ≡ is_wait_end self }
    {
        matches!(self, Manner::EndsWait)
    }
}

// Whether one of these is such a lock that nobody else has at once.
fn is_barred(had: &Had, others: &[Had]) -> bool
    ensures { result ≡ list_any (excludes had.now) others.now }
{
    others.iter().any(|other| had.excludes(other))
}

// Whether the fact's thread held a lock that nobody else has at once with this one.
fn bars(had: &Had, fact: &Fact) -> bool
    ensures { result ≡ list_any (excludes had.now) (locks_held fact.now) }
{
    had.excludes(&fact.held) || is_barred(had, &fact.besides)
}

// Whether it held such a lock that nobody else has at once with one of these.
fn bars_any(hads: &[Had], fact: &Fact) -> bool
    ensures { result ≡ list_any (λ a. list_any (excludes a) (locks_held fact.now)) hads.now }
{
    hads.iter().any(|had| bars(had, fact))
}

/// Whether both threads held one lock, not both as readers.
pub fn has_gate(one: &Fact, other: &Fact) -> bool
    ensures { result ≡ has_gate one.now other.now }
{
    bars(&one.held, other) || bars_any(&one.besides, other)
}

/// Whether both threads can hold what they held at one time, for all that these reasons say.
pub fn can_meet(why: Reasons, lives: &Lives, one: &Fact, other: &Fact) -> bool
    ensures { result ≡ can_meet why lives.now one.now other.now }
{
    (!why.one_thread || are_two(one.thread, other.thread))
        && (!why.gate || !has_gate(one, other))
        && (!why.apart || !are_apart(lives, one, other))
}

// Whether it is this lock, held exclusively.
fn is_exclusively(had: &Had, lock: Single) -> bool
    ensures { result ≡ is_exclusively lock.0 had.now }
{
    had.lock == lock && had.mode.is_exclusive()
}

fn has_exclusively(hads: &[Had], lock: Single) -> bool
    ensures { result ≡ list_any (is_exclusively lock.0) hads.now }
{
    hads.iter().any(|had| is_exclusively(had, lock))
}

// Whether the fact's thread held this lock exclusively.
fn keeps(fact: &Fact, lock: Single) -> bool
    ensures { result ≡ list_any (is_exclusively lock.0) (locks_held fact.now) }
{
    is_exclusively(&fact.held, lock) || has_exclusively(&fact.besides, lock)
}

/// Whether the one asks for its lock as a wait for a condition ends, and the other took that lock
/// under one that the first kept in its wait.
pub fn is_kept_out(one: &Fact, other: &Fact) -> bool
    ensures { result ≡ is_kept_out one.now other.now }
{
    one.manner.is_wait_end()
        && one.asked.mode.is_exclusive()
        && other.under
        && keeps(one, other.asked.lock)
}

/// Whether the one's thread waits for good for the lock that the other's holds, for all that these
/// reasons say.
pub fn can_wait(why: Reasons, one: &Fact, other: &Fact) -> bool
    ensures { result ≡ can_wait why one.now other.now }
{
    one.asked.lock == other.held.lock
        && (!why.readers || one.asked.mode.is_exclusive() || other.held.mode.is_exclusive())
        && (!why.timed || !one.manner.is_timed())
        && (!why.waits || !is_kept_out(one, other))
}
