//! The token of an acquisition.

ghost use Rattle.std.specs.Prelude.{◌≡◌};
ghost use Rattle.std.specs.Option.{option_copied};

use wit_gates::Gate;
use wit_model::{LockNo, Mode, Reply, SeatNo};

// What is known of an acquisition: whose it is, of which lock and in which mode, how often the lock
// was acquired again through it, and what the verifier answered at the latest acquisition.
#[derive(Drop)]
pub(crate) struct Hold {
    pub(crate) lock: LockNo,
    pub(crate) seat: SeatNo,
    pub(crate) mode: Mode,
    pub(crate) depth: u16,
    pub(crate) asked: Option<Reply>,
    pub(crate) noted: Reply,
}

/// What who acquired a lock has in hand. It names its lock, its seat, its mode and its depth, which
/// is how often the lock was acquired again through it, and has a ticket of the lock's gate.
///
/// It isn't `Drop`: it has to be handed back to its lock, or abandoned.
pub struct Held<G: Gate> {
    pub(crate) hold: Hold,
    pub(crate) ticket: G::Ticket,
}

impl<G: Gate> Held<G> {
    /// The lock's number.
    pub fn lock(&self) -> LockNo
        ensures { result ≡ self.now.hold.lock }
    {
        self.hold.lock
    }

    /// Whose acquisition it is.
    pub fn seat(&self) -> SeatNo
        ensures { result ≡ self.now.hold.seat }
    {
        self.hold.seat
    }

    /// How the lock is held.
    pub fn mode(&self) -> Mode
        ensures { result ≡ self.now.hold.mode }
    {
        self.hold.mode
    }

    /// How often the lock was acquired again, from 0.
    pub fn depth(&self) -> u16
        ensures { result ≡ self.now.hold.depth }
    {
        self.hold.depth
    }

    /// What the latest request was answered, which may be a report; `None` where the lock was had
    /// by a try.
    pub fn asked(&self) -> Option<&Reply>
        ensures { option_copied result ≡ self.now.hold.asked }
    {
        self.hold.asked.as_ref()
    }

    /// What the latest acquisition was answered, which may be that the chunks are exhausted.
    pub fn noted(&self) -> &Reply
        ensures { result.now ≡ self.now.hold.noted }
    {
        &self.hold.noted
    }
}

/// Gives up a token whose release is refused. The gate and the verifier's record stay as they are:
/// the lock counts as held for good.
pub fn abandon<G: Gate>(held: Held<G>) {
    let Held { hold: _, ticket } = held;
    G::abandon(ticket);
}
