//! Looks through a list of held locks, newest first.

ghost use Rattle.std.specs.Prelude.{◌≡◌, find, reverse};
ghost use Rattle.wit_model.specs.Rules.Numbers.{IsGiven};
ghost use Rattle.wit_model.specs.Rules.Chunks.{IsList, chain_of};
ghost use Rattle.wit_model.specs.Rules.Verdict.{is_of};
ghost use Rattle.wit_check.specs.Held.{IsTyped, IsJudgeable};
ghost use Rattle.wit_check.specs.Looks.{sort_of, seen_in, with_older, with_locks};

use crate::basis::Basis;
use crate::orders::{Sort, breach, sort_of};
use wit_model::chunks::{Lists, is_full_without};
use wit_model::{Instance, LockNo, TypedRequest};

/// What one look through the held locks finds.
#[derive(Clone, Copy)]
pub struct Seen {
    /// The requested lock.
    pub held: Option<Instance>,
    /// The newest lock that violates an order.
    pub broken: Option<Instance>,
    /// The newest lock of the requested type among those older than that.
    pub older: Option<Instance>,
}

impl Seen {
    // One lock more is looked at, the next older one.
    #[inline(always)]
    fn look_at(&mut self, basis: &Basis, sort: Sort, request: TypedRequest, older: Instance)
        requires sort { sort ≡ sort_of basis.now request.type_no }
        requires asked { IsGiven basis.now.types request.type_no.0 }
        requires typed { IsGiven basis.now.lock_types older.lock.0 }
        ensures { self.new ≡ with_older basis.now request older self.old }
    {
        if older.lock.0 == request.lock.0 {
            self.held = Some(older);
        }
        let type_no = basis.type_held(older);
        if self.broken.is_none() {
            if breach(basis, sort, request.type_no, type_no).is_some() {
                self.broken = Some(older);
            }
        } else if self.older.is_none() && type_no.0 == request.type_no.0 {
            self.older = Some(older);
        }
    }

    // The locks of one chunk more.
    fn look_through(&mut self, basis: &Basis, sort: Sort, request: TypedRequest, chunk: &[Instance])
        requires sort { sort ≡ sort_of basis.now request.type_no }
        requires asked { IsGiven basis.now.types request.type_no.0 }
        requires typed { IsTyped basis.now.lock_types chunk.now }
        ensures { self.new ≡ with_locks basis.now request chunk.now self.old }
    {
        for place in (0..chunk.len()).rev() {
            self.look_at(basis, sort, request, chunk[place]);
        }
    }
}

/// Looks at each lock of a list.
pub fn look<L: Lists>(basis: &Basis, lists: &L, list: u16, request: TypedRequest) -> Seen
    requires list { IsList (L.chunks lists.now) list }
    requires asked { IsGiven basis.now.types request.type_no.0 }
    requires chain { IsJudgeable basis.now.lock_types (chain_of (L.chunks lists.now) list) }
    ensures { result ≡ seen_in basis.now request (chain_of (L.chunks lists.now) list) }
{
    let sort = sort_of(basis, request.type_no);
    let mut seen = Seen {
        held: None,
        broken: None,
        older: None,
    };
    let mut spot = lists.newest(list);
    while let Some(at) = spot {
        spot = lists.older(list, at);
        seen.look_through(basis, sort, request, lists.group(list, at));
    }
    seen
}

/// A lock as it is held: the newest of its instances.
pub fn newest_held<L: Lists>(lists: &L, list: u16, lock: LockNo) -> Option<Instance>
    requires { IsList (L.chunks lists.now) list }
    ensures { result ≡ find (is_of lock.0) (reverse (chain_of (L.chunks lists.now) list)) }
{
    let mut spot = lists.newest(list);
    while let Some(at) = spot {
        spot = lists.older(list, at);
        let found = newest_in(lists.group(list, at), lock);
        if found.is_some() {
            return found;
        }
    }
    None
}

// The newest instance of a lock in a chunk.
fn newest_in(chunk: &[Instance], lock: LockNo) -> Option<Instance>
    ensures { result ≡ find (is_of lock.0) (reverse chunk.now) }
{
    if is_full_without(chunk, lock) {
        return None;
    }
    chunk.iter().rev().copied().find(|i| i.lock.0 == lock.0)
}
