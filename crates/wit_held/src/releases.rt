//! What a release makes of a list of held locks, over any lists, and whether it may be. Nothing
//! here takes memory.

ghost use Rattle.std.specs.Prelude.{◌≡◌, ◌≢◌, true, find, None, Some, Ok, Err, OnOk, IfErr};
ghost use Rattle.wit_model.specs.declared.calls.Reply.TheVariants.{Unlocked};
ghost use Rattle.wit_model.specs.declared.locks.Mode.{Mode};
ghost use Rattle.wit_model.specs.declared.locks.Watch.{Watch};
ghost use Rattle.wit_model.specs.Rules.History.{is_on};
ghost use Rattle.wit_model.specs.Rules.Verdict.{is_of};
ghost use Rattle.wit_model.specs.Rules.Chunks.{IsList, IsPlaced, chain_of};
ghost use Rattle.wit_model.specs.Rules.Step.{released};
ghost use Rattle.wit_held.specs.Chains.{IsOnce, after_forget};
ghost use Rattle.wit_held.specs.Spots.{IsThere};

use crate::spots::{Found, find_held};
use wit_model::chunks::Lists;
use wit_model::{Fault, Instance, LockNo, Mode, Reply, Watch};

/// Takes an acquisition back in a list that holds the lock once at most: its count falls by one, or
/// it goes out where its count is 0. Nothing is changed where the list doesn't hold it.
pub fn forget<L: Lists>(lists: &mut L, list: u16, lock: LockNo)
    requires list { IsList (L.chunks lists.old) list }
    requires once { IsOnce lock.0 (chain_of (L.chunks lists.old) list) }
    ensures groups { (L.chunks lists.new).groups ≡ after_forget (L.chunks lists.old) list lock.0 }
    ensures size { (L.chunks lists.new).size ≡ (L.chunks lists.old).size }
    ensures placed { IsPlaced (L.chunks lists.old) → IsPlaced (L.chunks lists.new) }
{
    if let Some(there) = find_held(&*lists, list, lock) {
        take_back(lists, list, there);
    }
}

/// Records a release in this mode in a list that holds the lock once at most: an acquisition is
/// taken back as by `forget`, which is `Unlocked`. Where not everything is watched, any release of
/// a held lock is recorded, and one of another lock is passed over, which is `Ignored`.
///
/// # Errors
/// Where everything is watched, and then nothing is changed: `NotLocked`; `SharedUnlock` and
/// `ExclusiveUnlock` where the lock is held in the other mode; `ForbiddenUnlock` where it must not
/// be released and was acquired once.
pub fn release<L: Lists>(
    lists: &mut L,
    list: u16,
    lock: LockNo,
    mode: Mode,
    watch: Watch,
) -> Result<Reply, Fault>
    requires list { IsList (L.chunks lists.old) list }
    requires once { IsOnce lock.0 (chain_of (L.chunks lists.old) list) }
    ensures result { result
        ≡ released watch mode (find (is_of lock.0) (chain_of (L.chunks lists.old) list)) }
    ensures groups { result ≡ Ok Unlocked → (L.chunks lists.new).groups
        ≡ after_forget (L.chunks lists.old) list lock.0 }
    ensures size { (L.chunks lists.new).size ≡ (L.chunks lists.old).size }
    ensures placed { IsPlaced (L.chunks lists.old) → IsPlaced (L.chunks lists.new) }
    ensures unchanged { result ≢ Ok Unlocked → L.chunks lists.new ≡ L.chunks lists.old }
{
    let Some(there) = find_held(&*lists, list, lock) else {
        return release_of_none(watch);
    };
    if watch.is_on() {
        judge_release(there.held, mode)?;
    }
    take_back(lists, list, there);
    Ok(Reply::Unlocked)
}

// Takes one acquisition of the lock that stands there back: its list holds it once.
fn take_back<L: Lists>(lists: &mut L, list: u16, there: Found)
    requires list { IsList (L.chunks lists.old) list }
    requires once { IsOnce there.held.lock.0 (chain_of (L.chunks lists.old) list) }
    requires there { IsThere (L.chunks lists.old) list there.held.lock.0 there }
    ensures groups { (L.chunks lists.new).groups
        ≡ after_forget (L.chunks lists.old) list there.held.lock.0 }
    ensures size { (L.chunks lists.new).size ≡ (L.chunks lists.old).size }
    ensures placed { IsPlaced (L.chunks lists.old) → IsPlaced (L.chunks lists.new) }
{
    let mut held = there.held;
    if held.count > 0 {
        held.count -= 1;
        lists.replace_in(list, there.spot, there.index, held);
    } else {
        lists.remove_in(list, there.spot, there.index);
    }
}

// What a release of a lock that isn't held comes to.
fn release_of_none(watch: Watch) -> Result<Reply, Fault>
    ensures { (mode : Mode) → result ≡ released watch mode None }
{
    if !watch.is_on() {
        return Ok(Reply::Ignored);
    }
    Err(Fault::NotLocked)
}

// Whether a held lock may be released in this mode, where everything is watched.
fn judge_release(held: Instance, mode: Mode) -> Result<(), Fault>
    ensures ok { OnOk result ((watch : Watch) → is_on watch ≡ true
        → released watch mode (Some held) ≡ Ok Unlocked) }
    ensures err { IfErr result (λ fault. (watch : Watch) → is_on watch ≡ true
        → released watch mode (Some held) ≡ Err fault) }
{
    if held.mode.is_exclusive() && !mode.is_exclusive() {
        return Err(Fault::SharedUnlock);
    }
    if !held.mode.is_exclusive() && mode.is_exclusive() {
        return Err(Fault::ExclusiveUnlock);
    }
    if held.count == 0 && held.norelease {
        return Err(Fault::ForbiddenUnlock);
    }
    Ok(())
}
