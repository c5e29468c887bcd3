//! What one thread is answered, by gates and by the word in them.

ghost use Rattle.std.specs.Prelude.{◌≡◌};
ghost use Rattle.wit_model.specs.declared.locks.Mode.TheVariants.{Shared, Exclusive};
ghost use Rattle.wit_gates.specs.Tickets.{pass};

use crate::tests::{is_shut, tries};
use crate::{CondGate, Gate, InTurn, SpinGate, Ticket, Word};
use std::process::Abort;
use std::sync::{Mutex, Wait};
use std::test::Fail;
use wit_model::Mode;

/// What one thread is answered.
fn answers<G: Gate, R: Wait + Abort>(rt: &R, gate: &G) {
    let first = tries(rt, gate, Mode::Shared, "a share");
    let second = tries(rt, gate, Mode::Shared, "a share beside one");
    is_shut(rt, gate, Mode::Exclusive, "alone beside shares");
    let first = match gate.try_upgrade(rt, first) {
        Ok(alone) => {
            G::abandon(alone);
            panic!(rt; "the upgrade of one of two shares")
        }
        Err((share, _met)) => share,
    };
    gate.release(rt, Mode::Shared, second);
    let alone = match gate.try_upgrade(rt, first) {
        Ok(alone) => alone,
        Err((share, _met)) => {
            G::abandon(share);
            panic!(rt; "no upgrade of the only share")
        }
    };
    is_shut(rt, gate, Mode::Shared, "a share beside who is alone");
    is_shut(rt, gate, Mode::Exclusive, "alone beside who is alone");
    let first = gate.downgrade(rt, alone);
    let second = tries(rt, gate, Mode::Shared, "a share beside a downgraded one");
    gate.release(rt, Mode::Shared, first);
    gate.release(rt, Mode::Shared, second);
    let alone = tries(rt, gate, Mode::Exclusive, "alone at a free gate");
    gate.release(rt, Mode::Exclusive, alone);
    let last = tries(rt, gate, Mode::Shared, "a share after who was alone");
    gate.release(rt, Mode::Shared, last);
}

#[test]
fn gates_let_in_whom_they_should(rt: HostRuntime) -> Result<(), Fail> {
    let sleeping = CondGate::new(rt.alloc()).ok().expect(&rt, "memory");
    answers(&rt, &sleeping);
    let spinning = SpinGate::new(rt.alloc()).ok().expect(&rt, "memory");
    answers(&rt, &spinning);
    Ok(())
}

/// A share of a word.
fn share_of<R: Wait + Abort>(rt: &R, word: &Word, turn: &InTurn<'_>) -> Ticket
    ensures { result ≡ pass word.now Shared }
{
    match word.try_share(rt, turn) {
        Ok(share) => share,
        Err(_met) => panic!(rt; "no share"),
    }
}

/// The exclusive hold of a word.
fn hold_of<R: Wait + Abort>(rt: &R, word: &Word, turn: &InTurn<'_>) -> Ticket
    ensures { result ≡ pass word.now Exclusive }
{
    match word.try_exclusive(turn) {
        Ok(alone) => alone,
        Err(_met) => panic!(rt; "not alone at a free word"),
    }
}

/// Whether a look finds a word free, or had by one alone; and never full.
fn is_seen(word: &Word, free: bool, alone: bool) -> bool {
    let met = word.look();
    met.is_free() == free && met.is_exclusive() == alone && !met.is_full()
}

#[test]
fn words_tell_what_is_out(rt: HostRuntime) -> Result<(), Fail> {
    let (word, turn) = Word::new(rt.alloc())?;
    let turns = Mutex::new(turn);
    let turn = InTurn::Locked(turns.lock(&rt));
    assert!(rt; is_seen(&word, true, false));
    let alone = hold_of(&rt, &word, &turn);
    assert!(rt; is_seen(&word, false, true));
    let one = word.downgrade(&turn, alone);
    let other = share_of(&rt, &word, &turn);
    let (one, other) = word.pair(one, other);
    assert!(rt; is_seen(&word, false, false));
    let third = share_of(&rt, &word, &turn);
    assert!(rt; is_seen(&word, false, false));
    let _left = word.free(&turn, Mode::Shared, third);
    let _left = word.free(&turn, Mode::Shared, one);
    other.abandon();
    assert_eq!(rt;
        word.into_word(),
        1,
        "an abandoned ticket counts as still out"
    );
    let (word, turn) = Word::new(rt.alloc())?;
    let alone = hold_of(&rt, &word, &InTurn::Open(&turn));
    assert_eq!(rt; word.into_word_with(alone), 4_294_967_295);
    let (word, _turn) = Word::new(rt.alloc())?;
    assert_eq!(rt; word.into_word(), 0, "nobody had it");
    Ok(())
}
