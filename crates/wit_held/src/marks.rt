//! Marks of held locks: that one must not be released, or may be again. Nothing here takes memory.

ghost use Rattle.std.specs.Prelude.{◌≡◌, false, true};
ghost use Rattle.wit_model.specs.Rules.Chunks.{IsList, IsPlaced, chain_of};
ghost use Rattle.wit_held.specs.Chains.{IsOnce};
ghost use Rattle.wit_held.specs.Marks.{after_mark};

use crate::spots::find_held;
use wit_model::LockNo;
use wit_model::chunks::Lists;

/// Marks a lock that the list holds once at most: it must not be released (`witness_norelease` of
/// subr_witness.c). Its mode, its count and its site stay. Nothing is changed where the list
/// doesn't hold it.
pub fn norelease<L: Lists>(lists: &mut L, list: u16, lock: LockNo)
    requires list { IsList (L.chunks lists.old) list }
    requires once { IsOnce lock.0 (chain_of (L.chunks lists.old) list) }
    ensures groups { (L.chunks lists.new).groups
        ≡ after_mark (L.chunks lists.old) list lock.0 true }
    ensures size { (L.chunks lists.new).size ≡ (L.chunks lists.old).size }
    ensures placed { IsPlaced (L.chunks lists.old) → IsPlaced (L.chunks lists.new) }
{
    mark(lists, list, lock, true);
}

/// Takes the mark from a lock that the list holds once at most: it may be released
/// (`witness_releaseok` of subr_witness.c). Nothing else is changed.
pub fn releaseok<L: Lists>(lists: &mut L, list: u16, lock: LockNo)
    requires list { IsList (L.chunks lists.old) list }
    requires once { IsOnce lock.0 (chain_of (L.chunks lists.old) list) }
    ensures groups { (L.chunks lists.new).groups
        ≡ after_mark (L.chunks lists.old) list lock.0 false }
    ensures size { (L.chunks lists.new).size ≡ (L.chunks lists.old).size }
    ensures placed { IsPlaced (L.chunks lists.old) → IsPlaced (L.chunks lists.new) }
{
    mark(lists, list, lock, false);
}

fn mark<L: Lists>(lists: &mut L, list: u16, lock: LockNo, norelease: bool)
    requires list { IsList (L.chunks lists.old) list }
    requires once { IsOnce lock.0 (chain_of (L.chunks lists.old) list) }
    ensures groups { (L.chunks lists.new).groups
        ≡ after_mark (L.chunks lists.old) list lock.0 norelease }
    ensures size { (L.chunks lists.new).size ≡ (L.chunks lists.old).size }
    ensures placed { IsPlaced (L.chunks lists.old) → IsPlaced (L.chunks lists.new) }
{
    match find_held(&*lists, list, lock) {
        Some(there) => {
            let mut held = there.held;
            held.norelease = norelease;
            lists.replace_in(list, there.spot, there.index, held);
        }
        None => {}
    }
}
