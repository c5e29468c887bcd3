//! `attempt`: a call is made at once, unless it teaches orders.

ghost use Rattle.std.specs.Prelude.{◌++◌, IfOk};
ghost use Rattle.wit_model.specs.Rules.Orders.{AreDistinct, adopted};
ghost use Rattle.wit_model.specs.Rules.State.{orders_of};
ghost use Rattle.wit_matrix.specs.Relation.{OrdersAmong};
ghost use Rattle.wit_core.specs.Attempts.{Attempts, told};

use crate::verifier::Verifier;
use wit_model::{Call, Fault, Reply, SeatNo};

/// What became of a call that isn't refused.
#[derive(Drop)]
pub enum Attempt {
    /// It teaches no orders, and was made.
    Made(Reply),
    /// It teaches orders, by this answer, and is prepared.
    Teaches(Call, Reply),
}

impl Verifier {
    /// Makes a call where it teaches no orders; else prepares it, and gives it back. So what it
    /// teaches can be told before it is made. A call that is prepared gets just this answer when it
    /// is made next, and isn't refused for want of memory then (`prepare`).
    ///
    /// With the orders that the answer teaches, all orders are between numbers of types, and none
    /// stands twice.
    ///
    /// # Errors
    /// Those of the call's method, also for want of memory where the call was prepared before. What
    /// was prepared stays so.
    pub fn attempt(&mut self, seat: SeatNo, call: Call) -> Result<Attempt, Fault>
        ensures did { Attempts self.old seat.0 call result self.new }
        ensures among { IfOk result (λ attempt.
            OrdersAmong self.old.start.sizes.types
            (adopted call (told attempt) ++ orders_of self.old.start self.old.history)) }
        ensures distinct { IfOk result (λ attempt. AreDistinct
            (adopted call (told attempt) ++ orders_of self.old.start self.old.history)) }
    {
        // Called for its clauses that the start is accepted and the log legal.
        let _log = self.history();
        self.make_or_prepare(seat, call)
    }

    fn make_or_prepare(&mut self, seat: SeatNo, call: Call) -> Result<Attempt, Fault>
        ensures { Attempts self.old seat.0 call result self.new }
    {
        match call {
            Call::Check(request) => self.attempt_check(seat, request),
            Call::DefineOrder(first, second) => self.attempt_define(seat, first, second),
            call => Ok(Attempt::Made(self.call(seat, call)?)),
        }
    }
}
