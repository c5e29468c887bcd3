//! How a lock that is held is acquired again and released.

ghost use Rattle.std.specs.Prelude.{◌≡◌, ◌+◌, ◌-◌, ◌<◌, Err, Ok, Some, IfOk, IfErr, MatchOption};
ghost use Rattle.std.specs.Prelude.{MatchResult};
ghost use Rattle.wit_model.specs.declared.calls.Call.TheVariants.{Check, Unlock};
ghost use Rattle.wit_model.specs.Rules.Step.{Answers, AnswersOrFails};
ghost use Rattle.wit_shared.specs.Own.{Leaves};
ghost use Rattle.wit_locks.specs.Locking.{Acquires, FailsToRecurse, IsMade, next_request};

use crate::held::{Held, Hold};
use crate::kinds::Kind;
use crate::lock::Lock;
use std::sync::Wait;
use wit_gates::Gate;
use wit_model::{Fault, Limits, Mode, OpFlags, Reply, Site};
use wit_shared::{Room, Seat, Shared};

impl<J: Room, G: Gate, K: Kind> Lock<J, G, K> {
    /// Acquires a held lock again, in the token's mode: its depth is one more. The gate has no part
    /// in it.
    ///
    /// # Errors
    /// Those of `Shared::check`, and `RecursionTooDeep` where the depth is 65,535, of which the
    /// verifier isn't told; the token comes back.
    pub fn recurse<R: Wait>(
        &self,
        rt: &R,
        shared: &Shared<J>,
        seat: &mut Seat<J>,
        site: Site,
        held: Held<G>,
    ) -> Result<Held<G>, (Held<G>, Fault)>
        requires held { G.admits self.now.gate held.hold.mode held.ticket
            × (held.hold.lock ≡ self.now.number) × (held.hold.seat.0 ≡ seat.old.seat) }
        ensures calls { IfOk result (λ h. Acquires J.start
            (next_request self.now.number held.hold.mode site) h.hold.asked h.hold.noted
            seat.old seat.new) }
        ensures failed { IfErr result
            (λ e. FailsToRecurse J.start (next_request self.now.number held.hold.mode site)
            held.hold.depth e.1 seat.old seat.new) }
        ensures held { IfOk result (λ h. (h.ticket ≡ held.ticket)
            × (h.hold ≡ record held.hold {
              depth = held.hold.depth + 1;
              asked = h.hold.asked;
              noted = h.hold.noted;
            })) }
        ensures back { IfErr result (λ e. e.0 ≡ held) }
        ensures seat { (seat.new.seat ≡ seat.old.seat) × (seat.new.given ≡ seat.old.given) }
    {
        if held.hold.depth >= Limits::DEEPEST {
            return Err((held, Fault::RecursionTooDeep));
        }
        match self.acquire_again(rt, shared, seat, held.hold.mode, site) {
            Ok((asked, noted)) => {
                let Held { hold, ticket } = held;
                Ok(Held {
                    hold: Hold {
                        depth: hold.depth + 1,
                        asked: Some(asked),
                        noted,
                        ..hold
                    },
                    ticket,
                })
            }
            Err(fault) => Err((held, fault)),
        }
    }

    // Checks the request and notes it, and gives the replies.
    fn acquire_again<R: Wait>(
        &self,
        rt: &R,
        shared: &Shared<J>,
        seat: &mut Seat<J>,
        mode: Mode,
        site: Site,
    ) -> Result<(Reply, Reply), Fault>
        ensures calls { IfOk result (λ r. Acquires J.start (next_request self.now.number mode site)
            (Some r.0) r.1 seat.old seat.new) }
        ensures failed { IfErr result
            (λ fault. Leaves AnswersOrFails J.start (Check (next_request self.now.number mode site))
            (Err fault) seat.old seat.new) }
        ensures seat { (seat.new.seat ≡ seat.old.seat) × (seat.new.given ≡ seat.old.given) }
    {
        let asked = shared.check(rt, seat, self.number, mode, OpFlags::NEWORDER, site)?;
        match shared.note(rt, seat, self.number) {
            Ok(noted) => Ok((asked, noted)),
            Err(_) => unreachable!(),
        }
    }

    /// Releases a lock once: the token comes back where its depth is above 0, one less; at 0 the
    /// gate is left, and the answer is None.
    ///
    /// # Errors
    /// Those of `Shared::unlock`; the token comes back, and the gate stays entered.
    pub fn unlock<R: Wait>(
        &self,
        rt: &R,
        shared: &Shared<J>,
        seat: &mut Seat<J>,
        held: Held<G>,
    ) -> Result<Option<Held<G>>, (Held<G>, Fault)>
        requires held { G.admits self.now.gate held.hold.mode held.ticket
            × (held.hold.lock ≡ self.now.number) × (held.hold.seat.0 ≡ seat.old.seat) }
        ensures calls { MatchResult result
            (λ o. IsMade Answers J.start (Unlock self.now.number held.hold.mode) seat.old seat.new)
            (λ e. Leaves Answers J.start (Unlock self.now.number held.hold.mode)
            (Err e.1) seat.old seat.new) }
        ensures held { IfOk result (λ o. MatchOption o (held.hold.depth ≡ 0)
            (λ h. (h.ticket ≡ held.ticket)
            × (h.hold ≡ record held.hold { depth = held.hold.depth - 1 })
            × (0 < held.hold.depth))) }
        ensures back { IfErr result (λ e. e.0 ≡ held) }
        ensures seat { (seat.new.seat ≡ seat.old.seat) × (seat.new.given ≡ seat.old.given) }
    {
        if let Err(fault) = shared.unlock(rt, seat, self.number, held.hold.mode) {
            return Err((held, fault));
        }
        let Held { hold, ticket } = held;
        if hold.depth == 0 {
            self.gate.release(rt, hold.mode, ticket);
            return Ok(None);
        }
        Ok(Some(Held {
            hold: Hold {
                depth: hold.depth - 1,
                ..hold
            },
            ticket,
        }))
    }
}
