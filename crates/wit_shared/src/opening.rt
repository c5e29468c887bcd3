//! A verifier that is about to be shared.

ghost use Rattle.std.specs.Prelude.{◌≡◌, ◌≤◌, ◌<◌, ◌^◌, [], IfOk, IfErr, replicate};
ghost use Rattle.wit_shared.specs.declared.opening.Reason.TheVariants.{OutOfMemory};
ghost use Rattle.wit_shared.specs.declared.opening.TheConstants.{MOST_OBSERVERS};
ghost use Rattle.wit_shared.specs.Opening.{why_refused};
ghost use Rattle.wit_shared.specs.Publishing.{adoptions, published};

use crate::desk::Desk;
use crate::following::look;
use crate::shared::Shared;
use std::alloc::{AllocError, Global};
use std::marker::Model;
use std::sync::Wait;
use wit_core::Verifier;
use wit_observers::{Observer, Publisher};
use wit_seats::Room;

/// The most observers that a shared verifier has.
pub const MOST_OBSERVERS: u16 = 256;

// Places to look from, beside two for each observer, for news on their way.
const NEWS: usize = 64;

/// A verifier that is about to be shared, and that no type names yet. Clauses see the verifier,
/// which has logged nothing, and the names of what no other one shares with it.
pub struct OpenedVerifier {
    alloc: Global,
    verifier: Verifier,
    log: wit_seats::OpenedLog,
    list: wit_adoptions::OpenedList,
}

impl Model for OpenedVerifier {
    ghost use Rattle.std.specs.Prelude.{◌≡◌, []};
    ghost use Rattle.wit_shared.specs.Opening.{Unnamed};

    ghost Value = { Unnamed };

    ghost view = { λ o. record { story = o.verifier; table = o.log; list = o.list } };

    ghost invariant = { λ o. o.verifier.history ≡ [] };
}

/// Why a verifier isn't shared.
#[derive(Clone, Copy, Debug, PartialEq, Eq)]
pub enum Reason {
    /// It has logged calls, which no seat would own.
    HasEntries,
    /// Want of memory.
    OutOfMemory,
}

/// A verifier that isn't shared, as it was.
#[derive(Drop)]
pub struct Unopened {
    /// The verifier.
    pub verifier: Verifier,
    /// Why.
    pub reason: Reason,
}

// A publisher of the orders that a verifier has adopted, with this many places to look from.
fn publisher_of<J: Room, R: Wait>(
    rt: &R,
    alloc: Global,
    list: wit_adoptions::OpenedList,
    verifier: &Verifier,
    readers: usize,
) -> Result<Publisher<J>, AllocError>
    requires list { list ≡ J.list }
    requires readers { (0 < readers) × (readers < 2 ^ 32) }
    ensures { IfOk result (λ p. p ≡ published verifier.now) }
{
    let size = verifier.most_types();
    let mut publisher = Publisher::new(rt, alloc, list.named::<J>(), size, readers)?;
    match publisher.publish(rt, verifier.orders()) {
        Ok(()) => Ok(publisher),
        Err(refused) => {
            publisher.end(rt);
            Err(refused)
        }
    }
}

// An observer who knows all that is published.
fn observer_of<J: Room>(publisher: &mut Publisher<J>) -> Result<Observer<J>, AllocError>
    ensures kept { publisher.new ≡ publisher.old }
    ensures all { IfOk result (λ o. o ≡ publisher.old.orders) }
{
    Observer::new(publisher.news())
}

// This many of them.
fn observers_of<J: Room>(
    alloc: Global,
    publisher: &mut Publisher<J>,
    count: u16,
) -> Result<Vec<Observer<J>>, AllocError>
    ensures kept { publisher.new ≡ publisher.old }
    ensures all { IfOk result (λ v. v.items ≡ replicate count publisher.old.orders) }
{
    let mut observers = Vec::with_capacity(alloc, count as usize)?;
    for _ in 0..count {
        observers.push(observer_of(publisher)?)?;
    }
    Ok(observers)
}

impl OpenedVerifier {
    /// Opens a verifier that has logged nothing.
    ///
    /// # Errors
    /// `HasEntries` where it has, else `OutOfMemory`; the verifier comes back.
    pub fn new(alloc: Global, verifier: Verifier) -> Result<OpenedVerifier, Unopened>
        ensures ok { IfOk result (λ o. (o.story ≡ verifier) × (verifier.history ≡ [])) }
        ensures err { IfErr result (λ u. (u.verifier ≡ verifier)
            × (u.reason ≡ why_refused verifier.history)) }
    {
        if !verifier.history().is_empty() {
            return Err(Unopened {
                verifier,
                reason: Reason::HasEntries,
            });
        }
        match wit_seats::OpenedLog::new(alloc) {
            Ok(log) => Ok(OpenedVerifier {
                alloc,
                verifier,
                log,
                list: wit_adoptions::OpenedList::new(),
            }),
            Err(_) => Err(Unopened {
                verifier,
                reason: Reason::OutOfMemory,
            }),
        }
    }

    /// The shared verifier, under a name, and this many observers, `MOST_OBSERVERS` at most, each of
    /// whom knows the listed orders.
    ///
    /// # Errors
    /// `OutOfMemory`; the verifier comes back.
    pub fn named<J: Room, R: Wait>(
        self,
        rt: &R,
        observers: u16,
    ) -> Result<(Shared<J>, Vec<Observer<J>>), Unopened>
        requires name { (self.story.start ≡ J.start) × (self.table ≡ J.table)
            × (self.list ≡ J.list) }
        requires few { observers ≤ MOST_OBSERVERS }
        ensures ok { IfOk result (λ s. s.1.items ≡ replicate observers (adoptions J.start [])) }
        ensures err { IfErr result (λ u. (u.verifier ≡ self.story) × (u.reason ≡ OutOfMemory)) }
    {
        let OpenedVerifier {
            alloc,
            verifier,
            log,
            list,
        } = self;
        let readers = NEWS + 2 * observers as usize;
        let mut publisher = match publisher_of::<J, R>(rt, alloc, list, &verifier, readers) {
            Ok(publisher) => publisher,
            Err(_) => return Err(unnamed(verifier)),
        };
        match observers_of(alloc, &mut publisher, observers) {
            Ok(observers) => Ok((shared(alloc, verifier, log, publisher), observers)),
            Err(_) => {
                publisher.end(rt);
                Err(unnamed(verifier))
            }
        }
    }
}

// For want of memory.
fn unnamed(verifier: Verifier) -> Unopened
    ensures { (result.verifier ≡ verifier) × (result.reason ≡ OutOfMemory) }
{
    Unopened {
        verifier,
        reason: Reason::OutOfMemory,
    }
}

// A verifier behind its lock.
fn shared<J: Room>(
    alloc: Global,
    verifier: Verifier,
    log: wit_seats::OpenedLog,
    publisher: Publisher<J>,
) -> Shared<J>
    requires none { verifier.history ≡ [] }
    requires name { (verifier.start ≡ J.start) × (log ≡ J.table) }
    requires published { publisher ≡ published verifier }
{
    let mut keeper = log.named::<J>();
    look(&mut keeper, &verifier);
    Shared::of(Desk {
        alloc,
        verifier,
        handed: 0,
        keeper,
        publisher,
    })
}
