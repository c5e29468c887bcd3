//! Lists of held locks in chunks.

ghost use Rattle.std.specs.Prelude.{◌≡◌, ◌<◌, ◌+◌, ◌-◌, ◌^◌, ◌++◌, List, true, false, not, length};
ghost use Rattle.std.specs.Prelude.{None, find, position, reverse, take, slice_get, IfSome};
ghost use Rattle.std.specs.List.{slice_index_or};
ghost use Rattle.wit_model.specs.declared.locks.Instance.{Instance};
ghost use Rattle.wit_model.specs.declared.sizes.TheConstants.Limits.{MOST_SEATS};
ghost use Rattle.wit_model.specs.Rules.Numbers.{IsNumber};
ghost use Rattle.wit_model.specs.Rules.Verdict.{is_of};
ghost use Rattle.wit_model.specs.Rules.Groups.{flat, replaced_at, removed_at, replaced_in};
ghost use Rattle.wit_model.specs.Rules.Groups.{removed_in};
ghost use Rattle.wit_model.specs.Rules.Chunks.{Chunks, IsList, IsPlaced, IsSpot, KeepOthers, upto};
ghost use Rattle.wit_model.specs.Rules.Chunks.{groups_of, group_of, chain_of, set_groups};
ghost use Rattle.wit_model.specs.Rules.Chunks.{is_refused, pushed, list_of};

use crate::locks::{Instance, LockNo, SeatNo};

/// How many locks a chunk holds at most.
pub const CHUNK: usize = 5;

/// The list of the locks of one kind that a seat holds: of seat s, the list 2s - 1 has those of the
/// sleep kind, and 2s those of the spin kind.
pub fn list_of(seat: SeatNo, spin: bool) -> u16
    requires { IsNumber MOST_SEATS seat.0 }
    ensures { result ≡ list_of spin seat.0 }
{
    let last = 2 * seat.0;
    if spin { last } else { last - 1 }
}

/// Where one of a list's chunks stands, for as long as the lists aren't changed.
#[derive(Clone, Copy, Debug, PartialEq, Eq)]
pub struct Spot {
    /// Which of the list's chunks it is, counted from the oldest, 0.
    pub group: usize,
    /// The chunk.
    pub chunk: u16,
    /// The list's next newer chunk.
    pub newer: Option<u16>,
}

/// Lists of held locks, by their numbers from 1, in chunks of five.
///
/// A list takes a free chunk where it has none or its newest one is full, and gives an emptied
/// chunk back unless it is the list's only one. An older chunk is never filled up. Which free chunk
/// is taken isn't said. No call takes memory. At any time each chunk stands once in one of the
/// lists or among the free ones. What a call does to one list changes no other.
///
/// A list is gone through from its newest chunk on, by `newest` and `older`. Places in a list count
/// from the oldest lock, 0.
pub trait Lists {
    ghost chunks: { Self → Chunks };

    /// Puts a lock at the end of a list: false, and nothing is changed, exactly where this needs a
    /// chunk and none is free.
    fn push(&mut self, list: u16, instance: Instance) -> bool
        requires list { IsList (chunks self.old) list }
        ensures result { result ≡ not (is_refused (chunks self.old) list) }
        ensures groups { (chunks self.new).groups ≡ pushed (chunks self.old) list instance }
        ensures size { (chunks self.new).size ≡ (chunks self.old).size }
        ensures placed { IsPlaced (chunks self.new) }
        ensures others { KeepOthers (chunks self.old) (chunks self.new) list }
        ensures unchanged { result ≡ false → chunks self.new ≡ chunks self.old };

    /// Where a list's newest chunk stands: `None` where it has none.
    fn newest(&self, list: u16) -> Option<Spot>
        requires list { IsList (chunks self.now) list }
        ensures all { upto result ≡ length (groups_of (chunks self.now) list) }
        ensures spot { IfSome result (IsSpot (chunks self.now) list) }
        ensures few { length (chain_of (chunks self.now) list) < 2 ^ 32 };

    /// Where the next older chunk stands: `None` behind the oldest.
    fn older(&self, list: u16, spot: Spot) -> Option<Spot>
        requires list { IsList (chunks self.now) list }
        requires spot { IsSpot (chunks self.now) list spot }
        ensures before { upto result ≡ spot.group }
        ensures spot { IfSome result (IsSpot (chunks self.now) list) };

    /// What a chunk holds, oldest lock first.
    fn group(&self, list: u16, spot: Spot) -> &[Instance]
        requires list { IsList (chunks self.now) list }
        requires spot { IsSpot (chunks self.now) list spot }
        ensures { result.now ≡ group_of (chunks self.now) list spot };

    /// Writes another instance over one of a chunk.
    fn replace_in(&mut self, list: u16, spot: Spot, index: usize, instance: Instance)
        requires list { IsList (chunks self.old) list }
        requires spot { IsSpot (chunks self.old) list spot }
        requires index { index < length (group_of (chunks self.old) list spot) }
        ensures groups { (chunks self.new).groups ≡ set_groups (chunks self.old) list
            (replaced_in spot.group index instance (groups_of (chunks self.old) list)) }
        ensures size { (chunks self.new).size ≡ (chunks self.old).size }
        ensures placed { IsPlaced (chunks self.new) }
        ensures others { KeepOthers (chunks self.old) (chunks self.new) list };

    /// Takes one out of a chunk: the later ones of the chunk move down.
    fn remove_in(&mut self, list: u16, spot: Spot, index: usize)
        requires list { IsList (chunks self.old) list }
        requires spot { IsSpot (chunks self.old) list spot }
        requires index { index < length (group_of (chunks self.old) list spot) }
        ensures groups { (chunks self.new).groups ≡ set_groups (chunks self.old) list
            (removed_in spot.group index (groups_of (chunks self.old) list)) }
        ensures size { (chunks self.new).size ≡ (chunks self.old).size }
        ensures placed { IsPlaced (chunks self.new) }
        ensures others { KeepOthers (chunks self.old) (chunks self.new) list };

    /// How many chunks are free.
    fn free_chunks(&self) -> usize
        ensures free { result ≡ length (chunks self.now).unused }
        ensures placed { IsPlaced (chunks self.now) };

    /// The newest lock of a list: `None` where it holds none.
    final fn last(&self, list: u16) -> Option<Instance>
        requires list { IsList (chunks self.now) list }
        ensures { result ≡ slice_get (chain_of (chunks self.now) list)
            (length (chain_of (chunks self.now) list) - 1) }
    {
        let mut spot = self.newest(list);
        while let Some(at) = spot {
            let last = self.group(list, at).last().copied();
            if last.is_some() {
                return last;
            }
            spot = self.older(list, at);
        }
        None
    }

    /// How many locks a list holds.
    final fn len(&self, list: u16) -> usize
        requires list { IsList (chunks self.now) list }
        ensures value { result ≡ length (chain_of (chunks self.now) list) }
        ensures few { result < 2 ^ 32 }
    {
        let mut held = 0;
        let mut spot = self.newest(list);
        while let Some(at) = spot {
            spot = self.older(list, at);
            held += self.group(list, at).len();
        }
        held
    }

    /// The place of the oldest instance of a lock.
    final fn find(&self, list: u16, lock: LockNo) -> Option<usize>
        requires list { IsList (chunks self.now) list }
        ensures place { result ≡ position (is_of lock.0) (chain_of (chunks self.now) list) }
        ensures within { IfSome result (λ i. i < length (chain_of (chunks self.now) list)) }
    {
        let mut found = None;
        let mut spot = self.newest(list);
        while let Some(at) = spot {
            spot = self.older(list, at);
            found = find_before(self.group(list, at), lock, found);
        }
        found
    }

    /// The lock at a place.
    final fn at(&self, list: u16, place: usize) -> Instance
        requires list { IsList (chunks self.now) list }
        requires place { place < length (chain_of (chunks self.now) list) }
        ensures { result ≡ slice_index_or (chain_of (chunks self.now) list) place result }
    {
        let (spot, index) = locate(self, list, place);
        self.group(list, spot)[index]
    }

    /// Writes another instance over the one at a place.
    final fn replace(&mut self, list: u16, place: usize, instance: Instance)
        requires list { IsList (chunks self.old) list }
        requires place { place < length (chain_of (chunks self.old) list) }
        ensures groups { (chunks self.new).groups ≡ set_groups (chunks self.old) list
            (replaced_at place instance (groups_of (chunks self.old) list)) }
        ensures size { (chunks self.new).size ≡ (chunks self.old).size }
        ensures placed { IsPlaced (chunks self.new) }
        ensures others { KeepOthers (chunks self.old) (chunks self.new) list }
    {
        let (spot, index) = locate(&*self, list, place);
        self.replace_in(list, spot, index, instance);
    }

    /// Takes the lock at a place out: the later ones of the same chunk move down.
    final fn remove(&mut self, list: u16, place: usize)
        requires list { IsList (chunks self.old) list }
        requires place { place < length (chain_of (chunks self.old) list) }
        ensures groups { (chunks self.new).groups ≡ set_groups (chunks self.old) list
            (removed_at place (groups_of (chunks self.old) list)) }
        ensures size { (chunks self.new).size ≡ (chunks self.old).size }
        ensures placed { IsPlaced (chunks self.new) }
        ensures others { KeepOthers (chunks self.old) (chunks self.new) list }
    {
        let (spot, index) = locate(&*self, list, place);
        self.remove_in(list, spot, index);
    }
}

// Where a place of a list lies: the spot of its chunk, and where in the chunk.
fn locate<L: Lists>(lists: &L, list: u16, place: usize) -> (Spot, usize)
    requires list { IsList (L.chunks lists.now) list }
    requires place { place < length (chain_of (L.chunks lists.now) list) }
    ensures spot { IsSpot (L.chunks lists.now) list result.0 }
    ensures index { result.1 < length (group_of (L.chunks lists.now) list result.0) }
    ensures before { place ≡ length
        (flat (take result.0.group (groups_of (L.chunks lists.now) list))) + result.1 }
{
    let mut start = lists.len(list);
    let mut spot = lists.newest(list);
    while let Some(at) = spot {
        spot = lists.older(list, at);
        start -= lists.group(list, at).len();
        if start <= place {
            return (at, place - start);
        }
    }
    unreachable!()
}

// The place of the oldest instance of a lock in a chunk and what is newer, where there it has this
// place.
fn find_before(group: &[Instance], lock: LockNo, newer: Option<usize>) -> Option<usize>
    requires { IfSome newer (λ i. i < 2 ^ 32) }
    ensures { (later : List Instance) → newer ≡ position (is_of lock.0) later
        → result ≡ position (is_of lock.0) (group.now ++ later) }
{
    match find_lock(group, lock) {
        Some(index) => Some(index),
        None => match newer {
            Some(place) => Some(group.len() + place),
            None => None,
        },
    }
}

/// The place in a chunk of the oldest instance of a lock.
pub fn find_lock(held: &[Instance], lock: LockNo) -> Option<usize>
    ensures place { result ≡ position (is_of lock.0) held.now }
    ensures within { IfSome result (λ i. i < length held.now) }
{
    if is_full_without(held, lock) {
        return None;
    }
    held.iter().position(|i| i.lock.0 == lock.0)
}

/// Whether a chunk is full and doesn't hold a lock: five comparisons without a loop. Most chunks
/// that a look through a long list passes are so.
#[inline(always)]
pub fn is_full_without(held: &[Instance], lock: LockNo) -> bool
    ensures oldest { result ≡ true → position (is_of lock.0) held.now ≡ None }
    ensures newest { result ≡ true → find (is_of lock.0) (reverse held.now) ≡ None }
{
    match held {
        [a, b, c, d, e] => {
            a.lock.0 != lock.0
                && b.lock.0 != lock.0
                && c.lock.0 != lock.0
                && d.lock.0 != lock.0
                && e.lock.0 != lock.0
        }
        _ => false,
    }
}
