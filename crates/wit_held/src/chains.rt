//! What an acquisition and a turn to another mode make of a list of held locks, and how a lock is
//! held, over any lists. Nothing here takes memory.

ghost use Rattle.std.specs.Prelude.{◌≡◌, false, not, find};
ghost use Rattle.wit_model.specs.Rules.Verdict.{is_of};
ghost use Rattle.wit_model.specs.Rules.Chunks.{IsList, IsPlaced, chain_of};
ghost use Rattle.wit_held.specs.Chains.{IsOnce, IsShallow, is_unrecorded, after_record, after_turn};

use crate::spots::find_held;
use wit_model::chunks::Lists;
use wit_model::{Instance, LockNo, Mode};

/// Records an acquisition in a list that holds the lock once at most: a held lock's count rises by
/// one, it has the new site, and it keeps its mode; a new one goes to the end as it is given.
/// False, and nothing is changed, exactly where that needs a chunk and none is free.
///
/// A held lock's count is below 65,535, since a count has 16 bits. A verifier refuses a deeper
/// recursion before it comes here.
pub fn record<L: Lists>(lists: &mut L, list: u16, taken: Instance) -> bool
    requires list { IsList (L.chunks lists.old) list }
    requires once { IsOnce taken.lock.0 (chain_of (L.chunks lists.old) list) }
    requires shallow { IsShallow taken.lock.0 (chain_of (L.chunks lists.old) list) }
    ensures result { result ≡ not (is_unrecorded (L.chunks lists.old) list taken.lock.0) }
    ensures groups { (L.chunks lists.new).groups ≡ after_record (L.chunks lists.old) list taken }
    ensures size { (L.chunks lists.new).size ≡ (L.chunks lists.old).size }
    ensures placed { IsPlaced (L.chunks lists.new) }
    ensures unchanged { result ≡ false → L.chunks lists.new ≡ L.chunks lists.old }
{
    match find_held(&*lists, list, taken.lock) {
        Some(there) => {
            let mut held = there.held;
            held.count += 1;
            held.site = taken.site;
            lists.replace_in(list, there.spot, there.index, held);
            true
        }
        None => lists.push(list, taken),
    }
}

/// As `record`, of a lock that the list doesn't hold, which isn't looked for.
pub fn record_new<L: Lists>(lists: &mut L, list: u16, taken: Instance) -> bool
    requires list { IsList (L.chunks lists.old) list }
    requires new { find (is_of taken.lock.0) (chain_of (L.chunks lists.old) list) ≡ None }
    ensures result { result ≡ not (is_unrecorded (L.chunks lists.old) list taken.lock.0) }
    ensures groups { (L.chunks lists.new).groups ≡ after_record (L.chunks lists.old) list taken }
    ensures size { (L.chunks lists.new).size ≡ (L.chunks lists.old).size }
    ensures placed { IsPlaced (L.chunks lists.new) }
    ensures unchanged { result ≡ false → L.chunks lists.new ≡ L.chunks lists.old }
{
    lists.push(list, taken)
}

/// A lock as a list holds it that holds it once at most; `None` where it doesn't. The list is
/// looked through newest group first.
pub fn held<L: Lists>(lists: &L, list: u16, lock: LockNo) -> Option<Instance>
    requires list { IsList (L.chunks lists.now) list }
    requires once { IsOnce lock.0 (chain_of (L.chunks lists.now) list) }
    ensures { result ≡ find (is_of lock.0) (chain_of (L.chunks lists.now) list) }
{
    Some(find_held(lists, list, lock)?.held)
}

/// The oldest instance of a lock in a list that may hold it more than once; `None` where it doesn't
/// hold it. All of the list is looked through.
pub fn oldest_held<L: Lists>(lists: &L, list: u16, lock: LockNo) -> Option<Instance>
    requires { IsList (L.chunks lists.now) list }
    ensures { result ≡ find (is_of lock.0) (chain_of (L.chunks lists.now) list) }
{
    match lists.find(list, lock) {
        Some(place) => Some(lists.at(list, place)),
        None => None,
    }
}

/// Turns a lock that the list holds once at most to another mode: its count and its site stay.
/// Nothing is changed where the list doesn't hold it.
pub fn set_mode<L: Lists>(lists: &mut L, list: u16, lock: LockNo, mode: Mode)
    requires list { IsList (L.chunks lists.old) list }
    requires once { IsOnce lock.0 (chain_of (L.chunks lists.old) list) }
    ensures groups { (L.chunks lists.new).groups
        ≡ after_turn (L.chunks lists.old) list lock.0 mode }
    ensures size { (L.chunks lists.new).size ≡ (L.chunks lists.old).size }
    ensures placed { IsPlaced (L.chunks lists.old) → IsPlaced (L.chunks lists.new) }
{
    match find_held(&*lists, list, lock) {
        Some(there) => {
            let mut held = there.held;
            held.mode = mode;
            lists.replace_in(list, there.spot, there.index, held);
        }
        None => {}
    }
}
