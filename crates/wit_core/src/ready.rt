//! A call that is prepared: its answer, and all that it will need.

ghost use Rattle.std.specs.Prelude.{◌≡◌, ◌↔◌, IsTrue, true, None, Ok};
ghost use Rattle.wit_model.specs.Rules.Preparing.{IsPrepared, Prepares};
ghost use Rattle.wit_model.specs.Rules.Step.{answer_of, is_logged};
ghost use Rattle.wit_core.specs.Plans.{planned_call, entries_for};

use crate::verifier::Verifier;
use wit_model::{Fault, LockNo, Reply, Request, SeatNo};

/// A call that can be prepared: one that may teach an order.
#[derive(Clone, Copy, Debug, PartialEq, Eq)]
pub enum Plan {
    /// A lock is asked for.
    Check(Request),
    /// The first lock's type is to be before the second one's.
    Define(LockNo, LockNo),
}

impl Plan {
    // How many entries of the log the call needs: a request will be noted and released.
    fn entries(self) -> u32
        ensures { result ≡ entries_for (planned_call self) }
    {
        match self {
            Plan::Check(_) => 3,
            Plan::Define(_, _) => 1,
        }
    }
}

/// The call of a seat that is prepared, with the reply that it will be told and the same for the
/// log.
#[derive(Drop)]
pub struct Ready {
    /// Who will make the call.
    pub seat: SeatNo,
    /// The call.
    pub plan: Plan,
    /// Its reply.
    pub reply: Reply,
    /// Its reply, as the log will keep it.
    pub kept: Reply,
}

/// No call is prepared any more. Mostly none was: that is tested first, since all parts of one
/// would be written else.
#[inline(always)]
pub fn let_go(ready: &mut Option<Ready>)
    ensures { ready.new ≡ None }
{
    if ready.is_some() {
        *ready = None;
    }
}

impl Verifier {
    // Whether this is the call that is prepared.
    pub(crate) fn is_ready(&self, seat: SeatNo, plan: Plan) -> bool
        ensures { IsTrue result ↔ IsPrepared self.now seat.0 (planned_call plan) }
    {
        match &self.ready {
            Some(ready) => ready.seat.0 == seat.0 && ready.plan == plan,
            None => false,
        }
    }

    // Prepares a call that gets this reply.
    pub(crate) fn make_ready(
        &mut self,
        seat: SeatNo,
        plan: Plan,
        reply: Reply,
    ) -> Result<Reply, Fault>
        requires answer { answer_of self.old seat.0 (planned_call plan) ≡ Ok reply }
        requires logged { is_logged reply ≡ true }
        ensures { Prepares self.old seat.0 (planned_call plan) result self.new }
    {
        let kept = reply.share()?;
        let told = reply.share()?;
        self.log.reserve(plan.entries())?;
        self.known.make_room(&reply)?;
        self.ready = Some(Ready {
            seat,
            plan,
            reply,
            kept,
        });
        Ok(told)
    }
}
