//! The rules in their order.

ghost use Rattle.std.specs.Prelude.{◌≡◌, ◌≤◌, true, List, length, None, Some, is_some};
ghost use Rattle.std.specs.List.{last_or};
ghost use Rattle.wit_model.specs.declared.locks.TypeNo.{TypeNo};
ghost use Rattle.wit_model.specs.declared.profiles.Profile.TheVariants.{Plain};
ghost use Rattle.wit_model.specs.declared.sizes.TheConstants.Limits.{MOST_SEATS};
ghost use Rattle.wit_model.specs.Rules.Numbers.{IsNumber, IsGiven};
ghost use Rattle.wit_model.specs.Rules.Chunks.{IsList, chain_of, list_of};
ghost use Rattle.wit_model.specs.Rules.Verdict.{chain_asked, decided, ruling};
ghost use Rattle.wit_check.specs.Answers.{answer_by, new_orders};
ghost use Rattle.wit_check.specs.Bases.{basis, AreTypes};
ghost use Rattle.wit_check.specs.Behind.{over};
ghost use Rattle.wit_check.specs.Held.{sleep_chain, spin_chain, IsJudgeable};

use crate::again::again;
use crate::all_held::behind_all;
use crate::answers::Verdict;
use crate::basis::Basis;
use crate::chains::Chains;
use crate::duplicates::doubled;
use crate::held::{look, newest_held};
use crate::orders::learnt;
use crate::reversals::reported;
use wit_matrix::Matrix;
use wit_model::chunks::{Lists, list_of};
use wit_model::{Fault, Instance, Profile, SeatNo, TypedRequest, Watch};
use wit_table::Table;

/// The verdict of a check: the first of WITNESS's rules that applies decides (witness(4);
/// `witness_checkorder` in subr_witness.c).
///
/// The seat, one of 256, holds each lock once in its lists, those of the sleep kind in one and
/// those of the spin kind in the other. All types are the table's, and the matrix has room for
/// them. The profile says which of the held locks the request is compared with.
///
/// It takes no memory and changes nothing: what is to be adopted, or found in violation, is the
/// caller's to enter. How often a lock was acquired again isn't looked at. Its faults are
/// `SleepUnderSpin`, `SharedOfExclusive`, `ExclusiveOfShared` and `Recursed`.
pub fn verdict<L: Lists>(
    types: &Table,
    matrix: &Matrix,
    chains: Chains<L>,
    watch: Watch,
    request: TypedRequest,
    profile: Profile,
) -> Verdict
    requires seat { IsNumber MOST_SEATS chains.seat.0 }
    requires lists { IsList (L.chunks chains.lists.now) (list_of true chains.seat.0) }
    requires sleep { IsJudgeable chains.lock_types.now
        (sleep_chain (L.chunks chains.lists.now) chains.seat.0) }
    requires spin { IsJudgeable chains.lock_types.now
        (spin_chain (L.chunks chains.lists.now) chains.seat.0) }
    requires types { AreTypes types.now chains.lock_types.now }
    requires asked { IsGiven types.now.types request.type_no.0 }
    requires sized { length types.now.types ≤ matrix.now.size }
    ensures { let basis = basis types.now matrix.now chains.entry.lock_types.now in
        let sleep = sleep_chain (L.chunks chains.entry.lists.now) chains.entry.seat.0 in
        let spin = spin_chain (L.chunks chains.entry.lists.now) chains.entry.seat.0 in
        answer_by (new_orders basis (chain_asked basis sleep spin request) request) result
        ≡ ruling profile basis watch sleep spin request }
{
    if !watch.is_on() {
        return Verdict::Pass;
    }
    let basis = Basis {
        types,
        matrix,
        lock_types: chains.lock_types,
    };
    let spin = basis.class_of(request.type_no).is_spin();
    if !spin && holds_spin(chains.lists, chains.seat) {
        return Verdict::Fault(Fault::SleepUnderSpin);
    }
    let list = list_of(chains.seat, spin);
    match chains.lists.last(list) {
        Some(last) => judge(&basis, chains.lists, list, request, last, profile),
        None => Verdict::Pass,
    }
}

// Whether the seat holds a spin lock.
fn holds_spin<L: Lists>(lists: &L, seat: SeatNo) -> bool
    requires seat { IsNumber MOST_SEATS seat.0 }
    requires lists { IsList (L.chunks lists.now) (list_of true seat.0) }
    ensures { result ≡ is_some (last_or None (spin_chain (L.chunks lists.now) seat.0)) }
{
    lists.last(list_of(seat, true)).is_some()
}

// A lock is asked for behind others.
fn judge<L: Lists>(
    basis: &Basis,
    lists: &L,
    list: u16,
    request: TypedRequest,
    last: Instance,
    profile: Profile,
) -> Verdict
    requires list { IsList (L.chunks lists.now) list }
    requires chain { IsJudgeable basis.now.lock_types (chain_of (L.chunks lists.now) list) }
    requires last { last_or None (chain_of (L.chunks lists.now) list) ≡ Some last }
    requires asked { IsGiven basis.now.types request.type_no.0 }
    ensures { let chain = chain_of (L.chunks lists.now) list in
        answer_by (new_orders basis.now chain request) result
        ≡ decided (over profile basis.now chain request) }
{
    match profile {
        Profile::Plain => behind(basis, lists, list, request, last),
        Profile::AllHeld => behind_all(basis, lists, list, request),
    }
}

// A lock is asked for behind others, and compared with the last one.
fn behind<L: Lists>(
    basis: &Basis,
    lists: &L,
    list: u16,
    request: TypedRequest,
    last: Instance,
) -> Verdict
    requires list { IsList (L.chunks lists.now) list }
    requires chain { IsJudgeable basis.now.lock_types (chain_of (L.chunks lists.now) list) }
    requires last { last_or None (chain_of (L.chunks lists.now) list) ≡ Some last }
    requires asked { IsGiven basis.now.types request.type_no.0 }
    ensures { (new : List (TypeNo × TypeNo))
        → answer_by new result ≡ decided
        (over Plain basis.now (chain_of (L.chunks lists.now) list) request) }
{
    let parent = basis.type_held(last);
    let is_double = parent.0 == request.type_no.0;
    if is_double || basis.is_direct(parent, request.type_no) {
        return match newest_held(lists, list, request.lock) {
            Some(held) => again(request, held),
            None if is_double => doubled(basis, request, last),
            None => Verdict::Pass,
        };
    }
    let seen = look(basis, lists, list, request);
    match (seen.held, seen.broken) {
        (Some(held), _) => again(request, held),
        (None, Some(broken)) => reported(basis, request, broken, seen.older),
        (None, None) => learnt(basis, request, last),
    }
}
