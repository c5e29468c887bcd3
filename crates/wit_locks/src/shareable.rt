//! How locks that can be shared are acquired.

ghost use Rattle.std.specs.Prelude.{◌≡◌, Err, IfOk, IfSome, IfErr, MatchOption};
ghost use Rattle.wit_model.specs.declared.calls.Call.TheVariants.{NoteTry};
ghost use Rattle.wit_model.specs.Rules.Step.{AnswersOrFails};
ghost use Rattle.wit_shared.specs.Own.{Leaves};
ghost use Rattle.wit_locks.specs.Locking.{Acquires, Enters, FailsToAcquire, first_request};

use crate::held::Held;
use crate::kinds::{Shareable, ShareableClass};
use crate::lock::Lock;
use std::sync::Wait;
use wit_gates::Gate;
use wit_model::{Fault, Mode, Site};
use wit_shared::{Room, Seat, Shared};

impl<J: Room, G: Gate, C: ShareableClass> Lock<J, G, Shareable<C>> {
    /// Acquires the lock in a mode, and waits until it can: the verifier checks the request, then
    /// the gate is entered, then the verifier notes it. The order of the held locks' types before
    /// this one's may be learnt.
    ///
    /// # Errors
    /// Those of `Shared::check`, for which the gate isn't entered. `GateRefused` where the gate
    /// refuses: the request is then given up.
    pub fn lock<R: Wait>(
        &self,
        rt: &R,
        shared: &Shared<J>,
        seat: &mut Seat<J>,
        mode: Mode,
        site: Site,
    ) -> Result<Held<G>, Fault>
        ensures calls { IfOk result (λ h. Acquires J.start
            (first_request self.now.number mode site) h.hold.asked h.hold.noted seat.old seat.new) }
        ensures failed { IfErr result
            (λ fault. FailsToAcquire J.start (first_request self.now.number mode site)
            ((met : G.Met) × G.refuses self.now.gate mode met) fault seat.old seat.new) }
        ensures held { IfOk result (λ h. G.admits self.now.gate mode h.ticket
            × (h.hold.lock ≡ self.now.number) × (h.hold.seat.0 ≡ seat.old.seat)
            × (h.hold.mode ≡ mode) × (h.hold.depth ≡ 0)) }
        ensures seat { (seat.new.seat ≡ seat.old.seat) × (seat.new.given ≡ seat.old.given) }
    {
        self.acquire(rt, shared, seat, mode, site)
    }

    /// Acquires the lock in a mode if that needs no waiting: None where the gate, as it was met,
    /// lets nobody in, of which the verifier isn't told. No order is checked.
    ///
    /// # Errors
    /// Those of `Shared::note_try`; the gate is left again.
    pub fn try_lock<R: Wait>(
        &self,
        rt: &R,
        shared: &Shared<J>,
        seat: &mut Seat<J>,
        mode: Mode,
        site: Site,
    ) -> Result<Option<Held<G>>, Fault>
        ensures calls { IfOk result (λ o. MatchOption o
            ((seat.new ≡ seat.old) × (met : G.Met) × G.bars self.now.gate mode met)
            (λ h. Enters AnswersOrFails J.start (NoteTry self.now.number mode site) h.hold.noted
            seat.old seat.new)) }
        ensures failed { IfErr result
            (λ fault. Leaves AnswersOrFails J.start (NoteTry self.now.number mode site)
            (Err fault) seat.old seat.new) }
        ensures held { IfOk result (λ o. IfSome o (λ h. G.admits self.now.gate mode h.ticket
            × (h.hold.lock ≡ self.now.number) × (h.hold.seat.0 ≡ seat.old.seat)
            × (h.hold.mode ≡ mode) × (h.hold.depth ≡ 0) × (h.hold.asked ≡ None))) }
        ensures seat { (seat.new.seat ≡ seat.old.seat) × (seat.new.given ≡ seat.old.given) }
    {
        self.try_acquire(rt, shared, seat, mode, site)
    }
}
