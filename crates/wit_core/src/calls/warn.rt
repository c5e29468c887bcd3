//! `warn`: whether a seat holds locks where it should hold none.

ghost use Rattle.std.specs.Prelude.{◌≡◌, true, length};
ghost use Rattle.wit_model.specs.Rules.State.{state_of, is_seat};
ghost use Rattle.wit_model.specs.Rules.Verdict.{basis_of};
ghost use Rattle.wit_model.specs.Rules.Warnings.{is_allowed, is_nameable, warned, step_warn};

use crate::verifier::Verifier;
use wit_check::Basis;
use wit_held::{is_allowed, is_named, warn_count};
use wit_model::{Fault, Instance, LockNo, SeatNo, WarnFlags};

impl Verifier {
    /// How many locks a seat holds where it should hold none but the named one, or such as the
    /// flags allow: `witness_warn` of witness(4). Where not everything is watched it is none. It
    /// isn't logged, and takes no memory.
    ///
    /// # Errors
    /// In this order: `UnknownSeat`; `UnknownLock` for a named lock.
    pub fn warn(
        &self,
        seat: SeatNo,
        named: Option<LockNo>,
        flags: WarnFlags,
    ) -> Result<usize, Fault>
        ensures { result ≡ step_warn (state_of self.now) seat.0 named flags }
    {
        if !self.is_seat(seat) {
            return Err(Fault::UnknownSeat);
        }
        if !self.is_nameable(named) {
            return Err(Fault::UnknownLock);
        }
        Ok(self.warned(seat, named, flags))
    }

    // Whether a call may name this lock, if it names one.
    fn is_nameable(&self, named: Option<LockNo>) -> bool
        ensures { result ≡ is_nameable (state_of self.now) named }
    {
        match named {
            Some(lock) => self.is_live(lock),
            None => true,
        }
    }

    /// How many held locks a seat is warned of, whatever lock is named: 0 for a seat that there
    /// isn't. It takes no memory.
    pub fn warned(&self, seat: SeatNo, named: Option<LockNo>, flags: WarnFlags) -> usize
        ensures { result ≡ length (warned (state_of self.now) seat.0 named flags) }
    {
        if !self.is_seat(seat) {
            return 0;
        }
        let known = &self.known;
        let basis = Basis {
            types: known.names(),
            matrix: known.orders().matrix(),
            lock_types: known.lock_types(),
        };
        warn_count(self.seats.lists(), &basis, seat, self.watch, named, flags)
    }

    /// Whether a seat may hold a lock of the sleep kind where it should hold none: `warn` counts
    /// all but these, for which it is the named one, Giant under `GIANTOK`, or one whose holder may
    /// sleep under `SLEEPOK` (sx(9)). A lock that was never made has no type, so none but the named
    /// one is allowed. It takes no memory.
    pub fn is_allowed(&self, held: Instance, named: Option<LockNo>, flags: WarnFlags) -> bool
        ensures { result ≡ is_allowed (basis_of (state_of self.now).known) named flags held }
    {
        let known = &self.known;
        if known.locks().type_with(held.lock).is_none() {
            return is_named(named, held);
        }
        let basis = Basis {
            types: known.names(),
            matrix: known.orders().matrix(),
            lock_types: known.lock_types(),
        };
        is_allowed(&basis, named, flags, held)
    }
}
