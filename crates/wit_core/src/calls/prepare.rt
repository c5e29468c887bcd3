//! `prepare`: all that a call will need is asked for before it is made.

ghost use Rattle.std.specs.Prelude.{◌++◌, IfOk};
ghost use Rattle.wit_model.specs.Rules.Orders.{AreDistinct, adopted};
ghost use Rattle.wit_model.specs.Rules.Preparing.{IsPreparable, Prepares};
ghost use Rattle.wit_model.specs.Rules.State.{orders_of};
ghost use Rattle.wit_matrix.specs.Relation.{OrdersAmong};

use crate::verifier::Verifier;
use wit_model::{Call, Fault, Reply, SeatNo};

impl Verifier {
    /// The answer that a call would get, with all that it will need asked for: room in the log, for
    /// its reply, and for what it teaches. The same call, made next, gets just this answer, and
    /// isn't refused for want of memory. Nothing that readers tell changes. Any other call that is
    /// logged lets it go; so does another one that is prepared, unless that one would be passed
    /// over.
    ///
    /// With the orders that the answer teaches, all orders are between numbers of types, and none
    /// stands twice.
    ///
    /// The call is a check, or defines an order.
    ///
    /// # Errors
    /// Those of the call's method. What was prepared before stays so.
    pub fn prepare(&mut self, seat: SeatNo, call: &Call) -> Result<Reply, Fault>
        requires { IsPreparable call.now }
        ensures answer { Prepares self.old seat.0 call.now result self.new }
        ensures among { IfOk result (λ reply.
            OrdersAmong self.old.start.sizes.types
            (adopted call.now reply ++ orders_of self.old.start self.old.history)) }
        ensures distinct { IfOk result (λ reply.
            AreDistinct (adopted call.now reply ++ orders_of self.old.start self.old.history)) }
    {
        // Called for its clauses that the start is accepted and the log legal.
        let _log = self.history();
        match call {
            Call::Check(request) => self.ready_check(seat, *request),
            Call::DefineOrder(first, second) => self.ready_define(seat, *first, *second),
            _ => unreachable!(),
        }
    }
}
