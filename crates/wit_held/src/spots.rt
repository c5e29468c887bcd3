//! Where a lock stands in a list of held locks, which is looked through newest chunk first: most
//! locks are released soon.

ghost use Rattle.std.specs.Prelude.{◌≡◌, find, IfSome};
ghost use Rattle.std.specs.Option.{option_map};
ghost use Rattle.wit_model.specs.Rules.Verdict.{is_of};
ghost use Rattle.wit_model.specs.Rules.Chunks.{IsList, chain_of};
ghost use Rattle.wit_held.specs.Chains.{IsOnce};
ghost use Rattle.wit_held.specs.Spots.{IsThere, held_at};

use wit_model::chunks::{Lists, Spot, find_lock};
use wit_model::{Instance, LockNo};

/// A held lock, and where it stands.
#[derive(Clone, Copy)]
pub struct Found {
    /// Where its chunk stands in the list.
    pub spot: Spot,
    /// Which place in the chunk.
    pub index: usize,
    /// The lock.
    pub held: Instance,
}

/// Where a list holds a lock that it holds once at most.
pub fn find_held<L: Lists>(lists: &L, list: u16, lock: LockNo) -> Option<Found>
    requires list { IsList (L.chunks lists.now) list }
    requires once { IsOnce lock.0 (chain_of (L.chunks lists.now) list) }
    ensures there { IfSome result (IsThere (L.chunks lists.now) list lock.0) }
    ensures held { option_map held_at result
        ≡ find (is_of lock.0) (chain_of (L.chunks lists.now) list) }
{
    let mut spot = lists.newest(list);
    while let Some(at) = spot {
        spot = lists.older(list, at);
        let chunk = lists.group(list, at);
        if let Some(index) = find_lock(chunk, lock) {
            return Some(Found {
                spot: at,
                index,
                held: chunk[index],
            });
        }
    }
    None
}
