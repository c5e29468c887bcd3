//! The orders that a request teaches where it is compared with all held locks.

ghost use Rattle.std.specs.Prelude.{◌≡◌, ◌≤◌, ◌==◌, true, List, length, IfOk, OnOk};
ghost use Rattle.std.specs.List.{list_any};
ghost use Rattle.wit_model.specs.declared.locks.TypeNo.{TypeNo};
ghost use Rattle.wit_model.specs.declared.sizes.TheConstants.Limits.{MOST_SEATS};
ghost use Rattle.wit_model.specs.Rules.Numbers.{IsNumber, IsGiven};
ghost use Rattle.wit_model.specs.Rules.Chunks.{IsList, chain_of, list_of};
ghost use Rattle.wit_model.specs.Rules.Verdict.{chain_asked, is_new, orders_behind};
ghost use Rattle.wit_check.specs.Answers.{new_orders};
ghost use Rattle.wit_check.specs.Bases.{basis, AreTypes};
ghost use Rattle.wit_check.specs.Held.{sleep_chain, spin_chain, IsTyped, IsJudgeable};
ghost use Rattle.wit_check.specs.Meets.{with_parents};

use crate::basis::Basis;
use crate::chains::Chains;
use crate::orders::is_learnt;
use std::alloc::{AllocError, Global};
use wit_matrix::Matrix;
use wit_model::chunks::{Lists, list_of};
use wit_model::{Instance, NewOrders, TypeNo, TypedRequest};
use wit_table::Table;

/// The orders that a request teaches behind all the locks of its kind that its seat holds, that
/// behind the newest one first: those that may be learnt and are new, each once. They are what the
/// verdict `AdoptAll` stands for.
///
/// The seat, the locks and the types are as `verdict` wants them. Nothing is changed.
///
/// # Errors
/// Want of memory alone.
pub fn new_orders<L: Lists>(
    alloc: Global,
    types: &Table,
    matrix: &Matrix,
    chains: Chains<L>,
    request: TypedRequest,
) -> Result<NewOrders, AllocError>
    requires seat { IsNumber MOST_SEATS chains.seat.0 }
    requires lists { IsList (L.chunks chains.lists.now) (list_of true chains.seat.0) }
    requires sleep { IsJudgeable chains.lock_types.now
        (sleep_chain (L.chunks chains.lists.now) chains.seat.0) }
    requires spin { IsJudgeable chains.lock_types.now
        (spin_chain (L.chunks chains.lists.now) chains.seat.0) }
    requires types { AreTypes types.now chains.lock_types.now }
    requires asked { IsGiven types.now.types request.type_no.0 }
    requires sized { length types.now.types ≤ matrix.now.size }
    ensures { let basis = basis types.now matrix.now chains.entry.lock_types.now in
        let sleep = sleep_chain (L.chunks chains.entry.lists.now) chains.entry.seat.0 in
        let spin = spin_chain (L.chunks chains.entry.lists.now) chains.entry.seat.0 in
        IfOk result (λ new. new ≡ new_orders basis (chain_asked basis sleep spin request) request) }
{
    let basis = Basis {
        types,
        matrix,
        lock_types: chains.lock_types,
    };
    let spin = basis.class_of(request.type_no).is_spin();
    learnt_behind(
        &basis,
        alloc,
        chains.lists,
        list_of(chains.seat, spin),
        request,
    )
}

// The orders behind the locks of a list.
fn learnt_behind<L: Lists>(
    basis: &Basis,
    alloc: Global,
    lists: &L,
    list: u16,
    request: TypedRequest,
) -> Result<NewOrders, AllocError>
    requires list { IsList (L.chunks lists.now) list }
    requires typed { IsTyped basis.now.lock_types (chain_of (L.chunks lists.now) list) }
    requires asked { IsGiven basis.now.types request.type_no.0 }
    ensures { IfOk result (λ new. new
        ≡ new_orders basis.now (chain_of (L.chunks lists.now) list) request) }
{
    let mut learnt = NewOrders::new(alloc);
    let mut spot = lists.newest(list);
    while let Some(at) = spot {
        spot = lists.older(list, at);
        learn(basis, request, lists.group(list, at), &mut learnt)?;
    }
    Ok(learnt)
}

// Learns the orders behind the locks of one chunk more.
fn learn(
    basis: &Basis,
    request: TypedRequest,
    chunk: &[Instance],
    learnt: &mut NewOrders,
) -> Result<(), AllocError>
    requires typed { IsTyped basis.now.lock_types chunk.now }
    requires asked { IsGiven basis.now.types request.type_no.0 }
    ensures { (parents : List TypeNo) → learnt.old ≡ orders_behind request parents
        → OnOk result (learnt.new ≡ orders_behind request
        (with_parents basis.now request chunk.now parents)) }
{
    for place in (0..chunk.len()).rev() {
        let held = chunk[place];
        if is_new(basis, request, learnt.pairs(), held) {
            learnt.push(basis.type_held(held), request.type_no)?;
        }
    }
    Ok(())
}

// Whether the order behind a held lock may be learnt and is new, where these orders of the same
// request are learnt before it.
fn is_new(basis: &Basis, request: TypedRequest, before: &[(TypeNo, TypeNo)], held: Instance) -> bool
    requires held { IsGiven basis.now.lock_types held.lock.0 }
    requires asked { IsGiven basis.now.types request.type_no.0 }
    ensures { (parents : List TypeNo) → before.now ≡ orders_behind request parents
        → result ≡ is_new basis.now request parents held }
{
    let parent = basis.type_held(held);
    if !is_learnt(basis, request, held) {
        return false;
    }
    if basis.is_direct(parent, request.type_no) {
        return false;
    }
    !is_among(parent, before)
}

// Whether one of these orders is behind a type.
fn is_among(parent: TypeNo, orders: &[(TypeNo, TypeNo)]) -> bool
    ensures { result ≡ list_any (λ (order : TypeNo × TypeNo). order.0.0 == parent.0) orders.now }
{
    orders.iter().any(|order| order.0.0 == parent.0)
}
