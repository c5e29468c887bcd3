//! What threads hold.

ghost use Rattle.std.specs.Prelude.{◌≡◌, ◌+◌, ◌<◌, ◌^◌};
ghost use Rattle.std.specs.Prelude.{IfSome, length, OnOk};
ghost use Rattle.wit_import.specs.Names.{written};
ghost use Rattle.std.specs.List.{list_any};
ghost use Rattle.wit_import.specs.Held.{asks_again, is_lock, is_of, is_own, is_recursive};
ghost use Rattle.wit_import.specs.Held.{last_from, place_released, with_freed, with_newest};

use crate::events::{Acquisition, Release, Sharing};
use crate::names::{Names, add_name, count};
use crate::words::Word;
use std::alloc::{AllocError, Global};

/// So many acquisitions are kept at most. That many locks are held at no time: but where a source
/// misses releases, what is left of them would grow for ever, and be walked over.
pub const MOST_HELD: usize = 4096;

/// So many locks are kept at most that were released.
pub const MOST_FREED: usize = 4096;

/// An acquisition that wasn't released yet.
#[derive(Debug, Drop)]
pub struct Holding {
    pub acquisition: Acquisition,
    /// The thread didn't wait for the lock.
    pub tried: bool,
}

impl Holding {
    /// Whether it is this thread's.
    pub fn is_of(&self, thread: &Word) -> bool
        ensures { result ≡ is_of thread.now self.now }
    {
        self.acquisition.thread.is(thread)
    }

    fn is_lock(&self, lock: &Word) -> bool
        ensures { result ≡ is_lock lock.now self.now }
    {
        self.acquisition.lock.is(lock)
    }

    fn is_own(&self, thread: &Word, lock: &Word) -> bool
        ensures { result ≡ is_own thread.now lock.now self.now }
    {
        self.is_of(thread) && self.is_lock(lock)
    }
}

/// Adds an acquisition. Where so many are kept already, the oldest is let go.
///
/// # Errors
/// Want of memory alone.
pub fn hold(held: &mut Vec<Holding>, holding: Holding) -> Result<(), AllocError>
    ensures { OnOk result (held.new.items ≡ with_newest held.old.items holding) }
{
    if held.len() >= MOST_HELD {
        held.remove(0);
    }
    held.push(holding)?;
    Ok(())
}

/// Whether a reader asks for what it reads already, as it may.
pub fn asks_again(held: &[Holding], asked: &Acquisition) -> bool
    ensures { result ≡ asks_again held.now asked.now }
{
    is_recursive(asked.sharing) && has_own(held, &asked.thread, &asked.lock)
}

fn has_own(held: &[Holding], thread: &Word, lock: &Word) -> bool
    ensures { result ≡ list_any (is_own thread.now lock.now) held.now }
{
    held.iter().any(|holding| holding.is_own(thread, lock))
}

fn is_recursive(sharing: Sharing) -> bool
    ensures { result ≡ is_recursive sharing }
{
    match sharing {
        Sharing::Recursive => true,
        Sharing::Exclusive | Sharing::Shared => false,
    }
}

/// Where the acquisition stands that ends: the newest of the lock by the thread. Where there is none, the
/// newest by any other.
pub fn place_released(held: &[Holding], release: &Release) -> Option<usize>
    ensures place { result ≡ place_released held.now release.now }
    ensures within { IfSome result (λ n. n < length held.now) }
{
    match own_from(held, 0, None, release) {
        Some(place) => Some(place),
        None => any_from(held, 0, None, release),
    }
}

// The last place of the thread's own acquisition, counted from a number.
fn own_from(
    held: &[Holding],
    first: usize,
    found: Option<usize>,
    release: &Release,
) -> Option<usize>
    requires room { first + length held.now < 2 ^ 64 }
    requires found { IfSome found (λ n. n < first + length held.now) }
    ensures place { result ≡ last_from (is_own release.now.thread release.now.lock) first found
        held.now }
    ensures within { IfSome result (λ n. n < first + length held.now) }
{
    match held {
        [] => found,
        [holding, others @ ..] => {
            let found = match holding.is_own(&release.thread, &release.lock) {
                true => Some(first),
                false => found,
            };
            own_from(others, first + 1, found, release)
        }
    }
}

// The last place of any acquisition of the lock, counted from a number.
fn any_from(
    held: &[Holding],
    first: usize,
    found: Option<usize>,
    release: &Release,
) -> Option<usize>
    requires room { first + length held.now < 2 ^ 64 }
    requires found { IfSome found (λ n. n < first + length held.now) }
    ensures place { result ≡ last_from (is_lock release.now.lock) first found held.now }
    ensures within { IfSome result (λ n. n < first + length held.now) }
{
    match held {
        [] => found,
        [holding, others @ ..] => {
            let found = match holding.is_lock(&release.lock) {
                true => Some(first),
                false => found,
            };
            any_from(others, first + 1, found, release)
        }
    }
}

/// Notes that a lock was released. Where so many were noted already, all are forgotten.
///
/// # Errors
/// Want of memory alone.
pub fn note_freed(alloc: Global, freed: &mut Names, lock: &Word) -> Result<(), AllocError>
    ensures { OnOk result (written freed.new.keys ≡ with_freed (written freed.old.keys) lock.now) }
{
    if count(freed) >= MOST_FREED {
        freed.clear();
    }
    add_name(alloc, freed, lock.as_bytes())
}
