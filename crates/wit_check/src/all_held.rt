//! A lock is asked for behind others, and compared with all of them.

ghost use Rattle.std.specs.Prelude.{◌≡◌};
ghost use Rattle.wit_model.specs.declared.profiles.Profile.TheVariants.{AllHeld};
ghost use Rattle.wit_model.specs.Rules.Numbers.{IsGiven};
ghost use Rattle.wit_model.specs.Rules.Chunks.{IsList, chain_of};
ghost use Rattle.wit_model.specs.Rules.Verdict.{decided};
ghost use Rattle.wit_check.specs.Answers.{answer_by, new_orders};
ghost use Rattle.wit_check.specs.Behind.{over};
ghost use Rattle.wit_check.specs.Held.{IsTyped, IsJudgeable};
ghost use Rattle.wit_check.specs.Meets.{met_in, with_met, with_all_met};

use crate::again::again;
use crate::answers::Verdict;
use crate::basis::Basis;
use crate::duplicates::doubled;
use crate::held::look;
use crate::orders::is_learnt;
use crate::reversals::reported;
use wit_model::chunks::Lists;
use wit_model::{Instance, TypedRequest};

/// What a first look through the held locks finds.
#[derive(Clone, Copy)]
pub struct Met {
    /// The requested lock.
    pub held: Option<Instance>,
    /// The newest lock of the requested type.
    pub twin: Option<Instance>,
    /// Whether the orders behind all of them are direct ones.
    pub known: bool,
    /// Whether an order that is none may be learnt behind one of them.
    pub teaches: bool,
}

impl Met {
    // One lock more is looked at, the next older one.
    #[inline(always)]
    fn look_at(&mut self, basis: &Basis, request: TypedRequest, older: Instance)
        requires asked { IsGiven basis.now.types request.type_no.0 }
        requires typed { IsGiven basis.now.lock_types older.lock.0 }
        ensures { self.new ≡ with_met basis.now request older self.old }
    {
        let type_no = basis.type_held(older);
        if older.lock.0 == request.lock.0 {
            self.held = Some(older);
        }
        if self.twin.is_none() && type_no.0 == request.type_no.0 {
            self.twin = Some(older);
        }
        if !basis.is_direct(type_no, request.type_no) {
            self.known = false;
            self.teaches = self.teaches || is_learnt(basis, request, older);
        }
    }

    // The locks of one chunk more.
    fn look_through(&mut self, basis: &Basis, request: TypedRequest, chunk: &[Instance])
        requires asked { IsGiven basis.now.types request.type_no.0 }
        requires typed { IsTyped basis.now.lock_types chunk.now }
        ensures { self.new ≡ with_all_met basis.now request chunk.now self.old }
    {
        for place in (0..chunk.len()).rev() {
            self.look_at(basis, request, chunk[place]);
        }
    }
}

/// Looks at each lock of a list.
fn meet<L: Lists>(basis: &Basis, lists: &L, list: u16, request: TypedRequest) -> Met
    requires list { IsList (L.chunks lists.now) list }
    requires asked { IsGiven basis.now.types request.type_no.0 }
    requires typed { IsTyped basis.now.lock_types (chain_of (L.chunks lists.now) list) }
    ensures { result ≡ met_in basis.now request (chain_of (L.chunks lists.now) list) }
{
    let mut met = Met {
        held: None,
        twin: None,
        known: true,
        teaches: false,
    };
    let mut spot = lists.newest(list);
    while let Some(at) = spot {
        spot = lists.older(list, at);
        met.look_through(basis, request, lists.group(list, at));
    }
    met
}

/// The verdict on a request for a lock behind those of a list, which is compared with all of them.
pub fn behind_all<L: Lists>(basis: &Basis, lists: &L, list: u16, request: TypedRequest) -> Verdict
    requires list { IsList (L.chunks lists.now) list }
    requires chain { IsJudgeable basis.now.lock_types (chain_of (L.chunks lists.now) list) }
    requires asked { IsGiven basis.now.types request.type_no.0 }
    ensures { let chain = chain_of (L.chunks lists.now) list in
        answer_by (new_orders basis.now chain request) result
        ≡ decided (over AllHeld basis.now chain request) }
{
    let met = meet(basis, lists, list, request);
    if let Some(held) = met.held {
        return again(request, held);
    }
    if let Some(twin) = met.twin {
        return doubled(basis, request, twin);
    }
    if met.known {
        return Verdict::Pass;
    }
    let seen = look(basis, lists, list, request);
    match seen.broken {
        Some(broken) => reported(basis, request, broken, seen.older),
        None if met.teaches => Verdict::AdoptAll,
        None => Verdict::Pass,
    }
}
