//! How a held lock comes to be held in the other mode.

ghost use Rattle.std.specs.Prelude.{◌≡◌, ◌⊎◌, Err, IfOk, IfErr};
ghost use Rattle.wit_model.specs.declared.calls.Call.TheVariants.{Downgrade, Upgrade};
ghost use Rattle.wit_model.specs.declared.faults.Fault.TheVariants.{GateRefused};
ghost use Rattle.wit_model.specs.declared.locks.Mode.TheVariants.{Exclusive, Shared as AsShared};
ghost use Rattle.wit_model.specs.Rules.Step.{AnswersOrFails};
ghost use Rattle.wit_shared.specs.Own.{Leaves};
ghost use Rattle.wit_locks.specs.Locking.{IsMade};

use crate::held::{Held, Hold};
use crate::kinds::Kind;
use crate::lock::Lock;
use std::sync::Wait;
use wit_gates::Gate;
use wit_model::{Fault, Mode};
use wit_shared::{Room, Seat, Shared};

impl<J: Room, G: Gate, K: Kind> Lock<J, G, K> {
    /// Turns a shared hold into an exclusive one, where nobody else shares the lock: the gate
    /// first, then the verifier. Of a token that is exclusive already the verifier alone is asked.
    ///
    /// # Errors
    /// `GateRefused` where others share the lock, of which the verifier isn't told; those of
    /// `Shared::upgrade`. The token comes back as it was, but that its share of the gate may be
    /// another.
    pub fn try_upgrade<R: Wait>(
        &self,
        rt: &R,
        shared: &Shared<J>,
        seat: &mut Seat<J>,
        held: Held<G>,
    ) -> Result<Held<G>, (Held<G>, Fault)>
        requires held { G.admits self.now.gate held.hold.mode held.ticket
            × (held.hold.lock ≡ self.now.number) × (held.hold.seat.0 ≡ seat.old.seat) }
        ensures calls { IfOk result (λ h. IsMade AnswersOrFails J.start
            (Upgrade self.now.number) seat.old seat.new) }
        ensures failed { IfErr result
            (λ e. Leaves AnswersOrFails J.start (Upgrade self.now.number)
            (Err e.1) seat.old seat.new
            ⊎ ((e.1 ≡ GateRefused) × (held.hold.mode ≡ AsShared) × (seat.new ≡ seat.old)
            × (met : G.Met) × G.crowds self.now.gate met)) }
        ensures held { IfOk result (λ h. G.admits self.now.gate Exclusive h.ticket
            × (h.hold ≡ record held.hold { mode = Exclusive })) }
        ensures back { IfErr result (λ e. G.admits self.now.gate held.hold.mode e.0.ticket
            × (e.0.hold ≡ held.hold)) }
        ensures seat { (seat.new.seat ≡ seat.old.seat) × (seat.new.given ≡ seat.old.given) }
    {
        match held.hold.mode {
            Mode::Exclusive => {
                if let Err(fault) = shared.upgrade(rt, seat, self.number) {
                    return Err((held, fault));
                }
                Ok(held)
            }
            Mode::Shared => self.upgrade_share(rt, shared, seat, held),
        }
    }

    // Upgrades a shared token: the gate is asked first, and only then the verifier.
    fn upgrade_share<R: Wait>(
        &self,
        rt: &R,
        shared: &Shared<J>,
        seat: &mut Seat<J>,
        held: Held<G>,
    ) -> Result<Held<G>, (Held<G>, Fault)>
        requires held { G.admits self.now.gate AsShared held.ticket × (held.hold.mode ≡ AsShared)
            × (held.hold.lock ≡ self.now.number) × (held.hold.seat.0 ≡ seat.old.seat) }
        ensures calls { IfOk result (λ h. IsMade AnswersOrFails J.start
            (Upgrade self.now.number) seat.old seat.new) }
        ensures failed { IfErr result
            (λ e. Leaves AnswersOrFails J.start (Upgrade self.now.number)
            (Err e.1) seat.old seat.new
            ⊎ ((e.1 ≡ GateRefused) × (seat.new ≡ seat.old)
            × (met : G.Met) × G.crowds self.now.gate met)) }
        ensures held { IfOk result (λ h. G.admits self.now.gate Exclusive h.ticket
            × (h.hold ≡ record held.hold { mode = Exclusive })) }
        ensures back { IfErr result (λ e. G.admits self.now.gate AsShared e.0.ticket
            × (e.0.hold ≡ held.hold)) }
        ensures seat { (seat.new.seat ≡ seat.old.seat) × (seat.new.given ≡ seat.old.given) }
    {
        let Held { hold, ticket } = held;
        let ticket = match self.gate.try_upgrade(rt, ticket) {
            Ok(ticket) => ticket,
            Err((ticket, _met)) => return Err((Held { hold, ticket }, Fault::GateRefused)),
        };
        if let Err(fault) = shared.upgrade(rt, seat, self.number) {
            let share = self.gate.downgrade(rt, ticket);
            return Err((
                Held {
                    hold,
                    ticket: share,
                },
                fault,
            ));
        }
        Ok(Held {
            hold: Hold {
                mode: Mode::Exclusive,
                ..hold
            },
            ticket,
        })
    }

    /// Turns an exclusive hold into a shared one: the verifier first, then the gate. Of a token
    /// that is shared already the verifier alone is asked.
    ///
    /// # Errors
    /// Those of `Shared::downgrade`; the token comes back.
    pub fn downgrade<R: Wait>(
        &self,
        rt: &R,
        shared: &Shared<J>,
        seat: &mut Seat<J>,
        held: Held<G>,
    ) -> Result<Held<G>, (Held<G>, Fault)>
        requires held { G.admits self.now.gate held.hold.mode held.ticket
            × (held.hold.lock ≡ self.now.number) × (held.hold.seat.0 ≡ seat.old.seat) }
        ensures calls { IfOk result (λ h. IsMade AnswersOrFails J.start
            (Downgrade self.now.number) seat.old seat.new) }
        ensures failed { IfErr result
            (λ e. Leaves AnswersOrFails J.start (Downgrade self.now.number)
            (Err e.1) seat.old seat.new) }
        ensures held { IfOk result (λ h. G.admits self.now.gate AsShared h.ticket
            × (h.hold ≡ record held.hold { mode = AsShared })) }
        ensures back { IfErr result (λ e. e.0 ≡ held) }
        ensures seat { (seat.new.seat ≡ seat.old.seat) × (seat.new.given ≡ seat.old.given) }
    {
        if let Err(fault) = shared.downgrade(rt, seat, self.number) {
            return Err((held, fault));
        }
        match held.hold.mode {
            Mode::Shared => Ok(held),
            Mode::Exclusive => {
                let Held { hold, ticket } = held;
                let ticket = self.gate.downgrade(rt, ticket);
                Ok(Held {
                    hold: Hold {
                        mode: Mode::Shared,
                        ..hold
                    },
                    ticket,
                })
            }
        }
    }
}
