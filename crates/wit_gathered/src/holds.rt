//! What is held.

ghost use Rattle.std.specs.Prelude.{◌≡◌, ◌+◌, ◌<◌, ◌^◌, IfSome, length, OnOk, is_some};
ghost use Rattle.wit_gathered.specs.Holds.{has_own, is_lock, is_others, is_own, is_writing, last_from};
ghost use Rattle.wit_gathered.specs.Holds.{place_released, released, same_context, seen_held};
ghost use Rattle.wit_gathered.specs.Holds.{with_newest};
ghost use Rattle.wit_gathered.specs.Requests.{interrupt_type};

use crate::requests::Step;
use crate::types::Type;
use std::alloc::AllocError;
use wit_traced::{Context, Reading};

/// So many are kept at most: where a source misses releases, what is left of them would grow for ever.
pub const MOST_HELD: usize = 4096;

/// A lock that a context holds.
#[derive(Clone, Copy, Debug)]
pub struct Hold {
    pub context: Context,
    pub lock: u64,
    pub reading: Reading,
    pub step: Step,
}

/// The lock that an interrupt stands for, which its context holds.
pub fn interrupt_of(context: Context) -> Option<Type>
    ensures { result ≡ interrupt_type context }
{
    match context {
        Context::Hardirq(_) => Some(Type::Hardirq),
        Context::Softirq(_) => Some(Type::Softirq),
        Context::Task(_) | Context::Idle(_) => None,
    }
}

/// Adds one. Where so many are kept already, the oldest is let go.
///
/// # Errors
/// Want of memory alone.
pub fn add_hold(held: &mut Vec<Hold>, one: Hold) -> Result<(), AllocError>
    ensures { OnOk result (held.new.items ≡ with_newest held.old.items one) }
{
    if held.len() >= MOST_HELD {
        held.remove(0);
    }
    held.push(one)?;
    Ok(())
}

/// Whether the context has the lock already.
pub fn has_own(held: &[Hold], context: Context, lock: u64) -> bool
    ensures { result ≡ has_own held.now context lock }
{
    held.iter().any(|one| is_own(one, context, lock))
}

fn is_own(one: &Hold, context: Context, lock: u64) -> bool
    ensures { result ≡ is_own context lock one.now }
{
    same_context(one.context, context) && is_lock(one, lock)
}

fn is_lock(one: &Hold, lock: u64) -> bool
    ensures { result ≡ is_lock lock one.now }
{
    one.lock == lock
}

/// Whether two contexts are one.
pub fn same_context(one: Context, other: Context) -> bool
    ensures { result ≡ same_context one other }
{
    match (one, other) {
        (Context::Task(one), Context::Task(other))
        | (Context::Idle(one), Context::Idle(other))
        | (Context::Softirq(one), Context::Softirq(other))
        | (Context::Hardirq(one), Context::Hardirq(other)) => one == other,
        _ => false,
    }
}

/// Takes out the newest hold of the lock by the context. Where there is none, the newest by any other.
/// Says whether there was one.
pub fn release(held: &mut Vec<Hold>, context: Context, lock: u64) -> bool
    ensures held { held.new.items ≡ released held.old.items context lock }
    ensures was { result ≡ is_some (place_released held.old.items context lock) }
{
    match place_released(held, context, lock) {
        Some(place) => {
            held.remove(place);
            true
        }
        None => false,
    }
}

fn place_released(held: &[Hold], context: Context, lock: u64) -> Option<usize>
    ensures place { result ≡ place_released held.now context lock }
    ensures within { IfSome result (λ n. n < length held.now) }
{
    match own_from(held, 0, None, context, lock) {
        Some(place) => Some(place),
        None => any_from(held, 0, None, lock),
    }
}

// The last place of the context's own, counted from a number.
fn own_from(
    held: &[Hold],
    first: usize,
    found: Option<usize>,
    context: Context,
    lock: u64,
) -> Option<usize>
    requires room { first + length held.now < 2 ^ 64 }
    requires found { IfSome found (λ n. n < first + length held.now) }
    ensures place { result ≡ last_from (is_own context lock) first found held.now }
    ensures within { IfSome result (λ n. n < first + length held.now) }
{
    match held {
        [] => found,
        [one, others @ ..] => {
            let found = match is_own(one, context, lock) {
                true => Some(first),
                false => found,
            };
            own_from(others, first + 1, found, context, lock)
        }
    }
}

// The last place of any, counted from a number.
fn any_from(held: &[Hold], first: usize, found: Option<usize>, lock: u64) -> Option<usize>
    requires room { first + length held.now < 2 ^ 64 }
    requires found { IfSome found (λ n. n < first + length held.now) }
    ensures place { result ≡ last_from (is_lock lock) first found held.now }
    ensures within { IfSome result (λ n. n < first + length held.now) }
{
    match held {
        [] => found,
        [one, others @ ..] => {
            let found = match is_lock(one, lock) {
                true => Some(first),
                false => found,
            };
            any_from(others, first + 1, found, lock)
        }
    }
}

/// Takes out what another context holds of a lock alone: it has released it, unseen, where somebody
/// acquires it.
pub fn release_unseen(held: &mut Vec<Hold>, context: Context, lock: u64)
    ensures { held.new.items ≡ seen_held held.old.items context lock }
{
    held.retain(|one| !is_others(one, context, lock));
}

fn is_others(one: &Hold, context: Context, lock: u64) -> bool
    ensures { result ≡ is_others context lock one.now }
{
    is_lock(one, lock) && !same_context(one.context, context) && is_writing(one.reading)
}

/// Whether nobody else has a lock that is acquired so.
pub fn is_writing(reading: Reading) -> bool
    ensures { result ≡ is_writing reading }
{
    match reading {
        Reading::Writes => true,
        Reading::Reads | Reading::Again => false,
    }
}
