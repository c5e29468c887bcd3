//! What becomes of an acquisition.

ghost use Rattle.std.specs.Prelude.{◌≡◌, false};
ghost use Rattle.wit_model.specs.Rules.Numbers.{IsGiven};
ghost use Rattle.wit_held.specs.Chains.{IsOnce, IsShallow};
ghost use Rattle.wit_model.specs.Rules.History.{is_off};
ghost use Rattle.wit_waiting.specs.Seats.{seat_in, locks_in};
ghost use Rattle.wit_core.specs.Acquiring.{reply_to, owed_after, acquisition, watch_then};
ghost use Rattle.wit_core.specs.Acquiring.{seating_then};

use wit_model::{Instance, Reply, SeatNo, Watch};
use wit_waiting::Seats;

/// What becomes of an acquisition.
#[derive(Clone, Copy, Debug)]
pub enum Acquisition {
    /// It is recorded.
    Recorded,
    /// No chunk is free for it, and nothing is watched from now on.
    Exhausted,
    /// It isn't recorded, since nothing is watched.
    Unrecorded,
}

impl Acquisition {
    /// The reply that tells it.
    pub fn reply(self) -> Reply
        ensures { result ≡ reply_to self }
    {
        match self {
            Acquisition::Recorded => Reply::Recorded,
            Acquisition::Exhausted => Reply::Exhausted,
            Acquisition::Unrecorded => Reply::Unrecorded,
        }
    }

    /// How many entries the log owes for it: that of its release.
    pub fn owed(self) -> u32
        ensures { result ≡ owed_after self }
    {
        match self {
            Acquisition::Recorded => 1,
            Acquisition::Exhausted | Acquisition::Unrecorded => 0,
        }
    }
}

/// A seat acquires a lock of this kind. Where no chunk is free for it, nothing is watched from now
/// on. It takes no memory.
#[inline(always)]
pub fn acquire(
    seats: &mut Seats,
    watch: &mut Watch,
    seat: SeatNo,
    spin: bool,
    taken: Instance,
) -> Acquisition
    requires seat { IsGiven seats.old.seats seat.0 }
    requires once { IsOnce taken.lock.0 (locks_in spin (seat_in seats.old seat.0)) }
    requires shallow { is_off watch.old ≡ false
        → IsShallow taken.lock.0 (locks_in spin (seat_in seats.old seat.0)) }
    ensures result { result ≡ acquisition watch.old seats.old seat.0 spin taken.lock.0 }
    ensures watch { watch.new ≡ watch_then result watch.old }
    ensures seats { seats.new ≡ seating_then result seat.0 spin taken seats.old }
{
    if watch.is_off() {
        return Acquisition::Unrecorded;
    }
    if seats.record(seat, spin, taken) {
        return Acquisition::Recorded;
    }
    *watch = Watch::Off;
    Acquisition::Exhausted
}
