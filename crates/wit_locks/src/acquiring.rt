//! How a lock of any class is acquired.

ghost use Rattle.std.specs.Prelude.{◌≡◌, Err, None, Ok, IfOk, IfSome, IfErr, MatchOption};
ghost use Rattle.wit_model.specs.declared.calls.Call.TheVariants.{NoteTry};
ghost use Rattle.wit_model.specs.Rules.Step.{AnswersOrFails};
ghost use Rattle.wit_shared.specs.Own.{Leaves};
ghost use Rattle.wit_locks.specs.Locking.{Acquires, Enters, FailsToAcquire, first_request};

use crate::held::{Held, Hold};
use crate::kinds::Kind;
use crate::lock::Lock;
use std::sync::Wait;
use wit_gates::Gate;
use wit_model::{Fault, Mode, OpFlags, Site};
use wit_shared::{Room, Seat, Shared};

// `NEWORDER` and `FRESH`: an order may be learnt, and the lock isn't held.
const FIRST_REQUEST: OpFlags = OpFlags(5);

impl<J: Room, G: Gate, K: Kind> Lock<J, G, K> {
    // Checks the request, enters the gate, and notes that.
    pub(crate) fn acquire<R: Wait>(
        &self,
        rt: &R,
        shared: &Shared<J>,
        seat: &mut Seat<J>,
        mode: Mode,
        site: Site,
    ) -> Result<Held<G>, Fault>
        ensures calls { IfOk result (λ h. Acquires J.start
            (first_request self.now.number mode site) h.hold.asked h.hold.noted seat.old seat.new) }
        ensures failed { IfErr result
            (λ fault. FailsToAcquire J.start (first_request self.now.number mode site)
            ((met : G.Met) × G.refuses self.now.gate mode met) fault seat.old seat.new) }
        ensures held { IfOk result (λ h. G.admits self.now.gate mode h.ticket
            × (h.hold.lock ≡ self.now.number) × (h.hold.seat.0 ≡ seat.old.seat)
            × (h.hold.mode ≡ mode) × (h.hold.depth ≡ 0)) }
        ensures seat { (seat.new.seat ≡ seat.old.seat) × (seat.new.given ≡ seat.old.given) }
    {
        let asked = shared.check(rt, seat, self.number, mode, FIRST_REQUEST, site)?;
        match self.gate.acquire(rt, seat, mode) {
            Ok(ticket) => match shared.note(rt, seat, self.number) {
                Ok(noted) => Ok(Held {
                    hold: Hold {
                        lock: self.number,
                        seat: seat.number(),
                        mode,
                        depth: 0,
                        asked: Some(asked),
                        noted,
                    },
                    ticket,
                }),
                Err(_) => unreachable!(),
            },
            Err(_met) => match shared.give_up(rt, seat, self.number) {
                Ok(_) => Err(Fault::GateRefused),
                Err(_) => unreachable!(),
            },
        }
    }

    // Tries the gate, and notes where it was entered.
    pub(crate) fn try_acquire<R: Wait>(
        &self,
        rt: &R,
        shared: &Shared<J>,
        seat: &mut Seat<J>,
        mode: Mode,
        site: Site,
    ) -> Result<Option<Held<G>>, Fault>
        ensures calls { IfOk result (λ o. MatchOption o
            ((seat.new ≡ seat.old) × (met : G.Met) × G.bars self.now.gate mode met)
            (λ h. Enters AnswersOrFails J.start (NoteTry self.now.number mode site) h.hold.noted
            seat.old seat.new)) }
        ensures failed { IfErr result
            (λ fault. Leaves AnswersOrFails J.start (NoteTry self.now.number mode site)
            (Err fault) seat.old seat.new) }
        ensures held { IfOk result (λ o. IfSome o (λ h. G.admits self.now.gate mode h.ticket
            × (h.hold.lock ≡ self.now.number) × (h.hold.seat.0 ≡ seat.old.seat)
            × (h.hold.mode ≡ mode) × (h.hold.depth ≡ 0) × (h.hold.asked ≡ None))) }
        ensures seat { (seat.new.seat ≡ seat.old.seat) × (seat.new.given ≡ seat.old.given) }
    {
        let Ok(ticket) = self.gate.try_acquire(rt, mode) else {
            return Ok(None);
        };
        match shared.note_try(rt, seat, self.number, mode, site) {
            Ok(noted) => Ok(Some(Held {
                hold: Hold {
                    lock: self.number,
                    seat: seat.number(),
                    mode,
                    depth: 0,
                    asked: None,
                    noted,
                },
                ticket,
            })),
            Err(fault) => {
                self.gate.release(rt, mode, ticket);
                Err(fault)
            }
        }
    }
}
