//! What is asserted of a lock, and what it comes to.

ghost use Rattle.std.specs.Prelude.{◌≡◌, ◌≤◌, None, Some, find};
ghost use Rattle.wit_model.specs.declared.locks.Watch.TheVariants.{On};
ghost use Rattle.wit_model.specs.Rules.Verdict.{is_of};
ghost use Rattle.wit_model.specs.Rules.Chunks.{IsList, chain_of};
ghost use Rattle.wit_model.specs.Rules.Assertions.{is_with_count, is_assertion, asserted};
ghost use Rattle.wit_model.specs.Rules.Assertions.{assertion};

use crate::chains::oldest_held;
use bitflags::Flags;
use wit_model::chunks::Lists;
use wit_model::{AssertAnswer, Instance, LockAssert, LockNo, Watch};

/// What an assertion about a lock comes to, by the list that holds it where it is held
/// (`witness_assert` of witness(4)): `Skipped` where not everything is watched, `Invalid` where no
/// assertion has these flags; else `Holds`, or the first thing that isn't so. It changes nothing
/// and takes no memory.
pub fn assert_is<L: Lists>(
    lists: &L,
    list: u16,
    lock: LockNo,
    watch: Watch,
    flags: LockAssert,
) -> AssertAnswer
    requires { IsList (L.chunks lists.now) list }
    ensures { result ≡ assertion watch flags
        (find (is_of lock.0) (chain_of (L.chunks lists.now) list)) }
{
    if !watch.is_on() {
        return AssertAnswer::Skipped;
    }
    asserted(oldest_held(lists, list, lock), flags)
}

/// What an assertion about a lock comes to where everything is watched, by how the lock is held, or
/// that it isn't: `Invalid`, `Holds`, or the first thing that isn't so.
pub fn asserted(held: Option<Instance>, flags: LockAssert) -> AssertAnswer
    ensures { result ≡ assertion On flags held }
{
    if !is_assertion(flags) {
        return AssertAnswer::Invalid;
    }
    match held {
        Some(held) => asserted_held(held, flags),
        None => asserted_free(flags),
    }
}

// Whether an assertion may have these flags: that the lock isn't held; or that it is, perhaps in a
// mode, and perhaps how often.
fn is_assertion(flags: LockAssert) -> bool
    ensures { result ≡ is_assertion flags.0 }
{
    flags.0 == LockAssert::UNLOCKED.0
        || is_with_count(flags, LockAssert::LOCKED)
        || is_with_count(flags, LockAssert::SLOCKED)
        || is_with_count(flags, LockAssert::XLOCKED)
}

// Whether these are the one flag, alone or with one that says how often the lock was acquired.
fn is_with_count(flags: LockAssert, holds: LockAssert) -> bool
    requires { holds.0 ≤ 8 }
    ensures { result ≡ is_with_count flags.0 holds.0 }
{
    flags.0 == holds.0
        || flags.0 == holds.0 + LockAssert::RECURSED.0
        || flags.0 == holds.0 + LockAssert::NOTRECURSED.0
}

// What it comes to for a lock that isn't held.
fn asserted_free(flags: LockAssert) -> AssertAnswer
    ensures { result ≡ asserted flags.0 None }
{
    if flags.contains(LockAssert::UNLOCKED) {
        AssertAnswer::Holds
    } else {
        AssertAnswer::IsNotLocked
    }
}

// What it comes to for a held lock.
fn asserted_held(held: Instance, flags: LockAssert) -> AssertAnswer
    ensures { result ≡ asserted flags.0 (Some held) }
{
    if flags.contains(LockAssert::UNLOCKED) {
        return AssertAnswer::IsLocked;
    }
    let exclusive = held.mode.is_exclusive();
    if flags.contains(LockAssert::XLOCKED) && !exclusive {
        return AssertAnswer::IsNotExclusive;
    }
    if flags.contains(LockAssert::SLOCKED) && exclusive {
        return AssertAnswer::IsExclusive;
    }
    if flags.contains(LockAssert::RECURSED) && held.count == 0 {
        return AssertAnswer::IsNotRecursed;
    }
    if flags.contains(LockAssert::NOTRECURSED) && held.count > 0 {
        return AssertAnswer::IsRecursed;
    }
    AssertAnswer::Holds
}
