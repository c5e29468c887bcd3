//! How a verifier begins in a place, and how it ends.

ghost use Rattle.std.specs.Prelude.{◌≡◌, ◌&&◌, None, Ok, IfOk, IfErr};
ghost use Rattle.wit_model.specs.declared.calls.Reply.TheVariants.{Pass};
ghost use Rattle.wit_model.specs.Rules.Sizes.{sizes_of, are_within_limits};
ghost use Rattle.wit_model.specs.Rules.Start.{start_fault, IsRefused};
ghost use Rattle.wit_model.specs.Rules.State.{fresh};
ghost use Rattle.wit_c.specs.Numbers.{profile_in};
ghost use Rattle.wit_c.specs.Starts.{start_in, have_classes, Starts};

use crate::kept_verifier::KeptVerifier;
use crate::lists::{BlessedPair, ListedType, have_classes, lists_in, pairs_in};
use crate::numbers::{FULL_PLACE, NO_SUCH, fault_number};
use crate::place::Place;
use std::alloc::Global;
use wit_core::{StartError, Verifier};
use wit_model::{Fault, Limits};

/// For how much a verifier has room.
#[repr(C)]
#[derive(Clone, Copy)]
pub struct Sizes {
    /// Seats.
    pub seats: u32,
    /// Types of locks.
    pub types: u32,
    /// Locks ever made.
    pub locks: u32,
    /// Chunks of held locks.
    pub chunks: u32,
    /// Entries of the log.
    pub log: u32,
}

/// A verifier begins in a place that is empty: `Verifier::new`, or, where all held locks are
/// compared with, `Verifier::new_all_held`. Where it is refused for a list, that is numbered.
#[unsafe(no_mangle)]
pub extern "C" fn wit_new(
    alloc: Global,
    place: &mut Place,
    sizes: &Sizes,
    all_held: bool,
    lists: &[&[ListedType]],
    blessed: &[BlessedPair],
    refused: &mut u64,
) -> i64
    ensures { let room = sizes_of sizes.now.seats sizes.now.types sizes.now.locks sizes.now.chunks
        sizes.now.log in
        Starts (are_within_limits room && have_classes lists.now)
        (start_in (profile_in all_held) room lists.now blessed.now)
        place.old.handle.value result refused.new place.new.handle.value }
{
    *refused = 0;
    if place.is_full() {
        return FULL_PLACE;
    }
    let room = Limits::new(
        sizes.seats,
        sizes.types,
        sizes.locks,
        sizes.chunks,
        sizes.log,
    );
    let Some(limits) = room else {
        return NO_SUCH;
    };
    if !have_classes(lists) {
        return NO_SUCH;
    }
    match begun(alloc, limits, all_held, lists, blessed) {
        Ok(kept) => {
            place.put(kept);
            0
        }
        Err(error) => {
            *refused = error.list;
            fault_number(error.fault)
        }
    }
}

/// What is in the place is given back, and the place is empty.
#[unsafe(no_mangle)]
pub extern "C" fn wit_free(alloc: Global, place: &mut Place)
    ensures { place.new.handle.value ≡ None }
{
    let _gone = place.take(alloc);
}

// A new verifier.
#[tactic(auto, using(crate::proofs::Refusing::memory_refuses))]
fn begun(
    alloc: Global,
    limits: Limits,
    all_held: bool,
    lists: &[&[ListedType]],
    blessed: &[BlessedPair],
) -> Result<Box<KeptVerifier, Global>, StartError>
    ensures accepted { IfOk result (λ kept. start_fault
        (start_in (profile_in all_held) limits lists.now blessed.now) ≡ None) }
    ensures fresh { IfOk result (λ kept. kept.value.verifier ≡ fresh
        (start_in (profile_in all_held) limits lists.now blessed.now)) }
    ensures untold { IfOk result (λ kept. kept.value.last ≡ Ok Pass) }
    ensures err { IfErr result (λ e. IsRefused
        (start_in (profile_in all_held) limits lists.now blessed.now) e.list e.fault) }
{
    let lists = lists_in(alloc, lists)?;
    let blessed = pairs_in(alloc, blessed)?;
    let verifier = if all_held {
        Verifier::new_all_held(alloc, limits, lists, blessed)?
    } else {
        Verifier::new(alloc, limits, lists, blessed)?
    };
    match Box::new(alloc, KeptVerifier::new(verifier)) {
        Ok(kept) => Ok(kept),
        Err(_) => Err(StartError {
            list: 0,
            fault: Fault::OutOfMemory,
        }),
    }
}
