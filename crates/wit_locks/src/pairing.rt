//! Tokens of one lock beside each other.

ghost use Rattle.std.specs.Prelude.{◌≡◌};
ghost use Rattle.wit_gates.specs.Tickets.{pass};
ghost use Rattle.wit_model.specs.declared.locks.Mode.TheVariants.{Shared as AsShared};

use crate::held::Held;
use crate::kinds::Kind;
use crate::lock::Lock;
use wit_gates::{WaitGate, Waiting};
use wit_shared::Room;

impl<J: Room, W: Waiting, K: Kind> Lock<J, WaitGate<W>, K> {
    /// Of two tokens of this lock that are out together neither is exclusive: who has it alone is
    /// alone. Both come back.
    pub fn pair(
        &self,
        one: Held<WaitGate<W>>,
        other: Held<WaitGate<W>>,
    ) -> (Held<WaitGate<W>>, Held<WaitGate<W>>)
        requires one { one.ticket ≡ pass self.now.gate one.hold.mode }
        requires other { other.ticket ≡ pass self.now.gate other.hold.mode }
        ensures shares { (one.hold.mode ≡ AsShared) × (other.hold.mode ≡ AsShared) }
        ensures same { result ≡ (one, other) }
    {
        let Held { hold, ticket } = one;
        let Held {
            hold: second,
            ticket: share,
        } = other;
        let (ticket, share) = self.gate.pair(ticket, share);
        (
            Held { hold, ticket },
            Held {
                hold: second,
                ticket: share,
            },
        )
    }
}
