//! What the answers ask of a verifier, in the words of the rules.

ghost use Rattle.std.specs.Prelude.{◌≡◌, ◌+◌, ◌&&◌, true, Some, not, is_some, IfSome, IfOk, IfErr};
ghost use Rattle.std.specs.Prelude.{OnOk, length, nat_le};
ghost use Rattle.wit_model.specs.Rules.Locks.{lock_at};
ghost use Rattle.wit_model.specs.Rules.Numbers.{is_number};
ghost use Rattle.wit_model.specs.Rules.State.{state_of, seat_at, is_seat, is_live, has_room};
ghost use Rattle.wit_model.specs.Rules.Step.{about_lock, about_seat, held_by, is_too_deep};
ghost use Rattle.wit_model.specs.Rules.Step.{before_acquiring, before_answering, before_naming};
ghost use Rattle.wit_model.specs.Rules.Destroying.{is_used};
ghost use Rattle.wit_model.specs.Rules.Types.{is_otherwise, is_enrolled};
ghost use Rattle.wit_core.specs.Replies.{Admits, Refuses};

use crate::verifier::Verifier;
use wit_known::is_enrolled;
use wit_model::{Class, Fault, FileNo, Instance, Limits, LockNo, Mode, Request, SeatNo, Site};

impl Verifier {
    pub(crate) fn is_seat(&self, seat: SeatNo) -> bool
        ensures { result ≡ is_seat (state_of self.now) seat.0 }
    {
        self.seats.is_seat(seat)
    }

    // What a seat that there is has asked for.
    fn request_of(&self, seat: SeatNo) -> Option<Request>
        requires { is_seat (state_of self.now) seat.0 ≡ true }
        ensures { result ≡ (seat_at (state_of self.now) seat.0).pending }
    {
        self.seats.request_of(seat)
    }

    // Whether some seat holds a lock or asks for it.
    pub(crate) fn is_used(&self, lock: LockNo) -> bool
        ensures { result ≡ is_used (state_of self.now) lock.0 }
    {
        self.seats.is_used(lock)
    }

    pub(crate) fn class_of_lock(&self, lock: LockNo) -> Class
        ensures { result ≡ (lock_at (state_of self.now).known.locks lock.0).made.class }
    {
        self.known.locks().class_of(lock)
    }

    // Whether a file was named under this number.
    pub(crate) fn is_file(&self, file: FileNo) -> bool
        ensures { result ≡ is_number (state_of self.now).files file.0 }
    {
        0 < file.0 && file.0 as usize <= self.known.names().files()
    }

    // A lock as a seat holds it.
    pub(crate) fn held(&self, seat: SeatNo, lock: LockNo) -> Option<Instance>
        requires { is_seat (state_of self.now) seat.0 ≡ true }
        ensures { result ≡ held_by (state_of self.now) seat.0 lock.0 }
    {
        let spin = self.class_of_lock(lock).is_spin();
        self.seats.find(seat, spin, lock)
    }

    // Whether one more acquisition of a lock would be recorded, and is one too many.
    fn is_too_deep(&self, seat: SeatNo, lock: LockNo) -> bool
        requires { is_seat (state_of self.now) seat.0 ≡ true }
        ensures { result ≡ is_too_deep (state_of self.now) seat.0 lock.0 }
    {
        if self.watch().is_off() {
            return false;
        }
        // A lock so deep is owed 65,536 releases: where the log owes fewer, the lock needn't be
        // looked for.
        if self.log.owed() < Limits::MOST_ACQUISITIONS {
            return false;
        }
        match self.held(seat, lock) {
            Some(held) => held.count as u32 + 1 == Limits::MOST_ACQUISITIONS,
            None => false,
        }
    }

    // Whether the log has room for this many entries beside those that are owed.
    pub(crate) fn has_room(&self, more: u32) -> bool
        ensures { result ≡ has_room (state_of self.now) more }
    {
        self.log.has_room(more)
    }
}

// What stands before the answers of several calls.
impl Verifier {
    // The faults of a call by a seat that asks for nothing.
    pub(crate) fn about_seat(&self, seat: SeatNo) -> Result<(), Fault>
        ensures ok { OnOk result (Admits (about_seat (state_of self.now) seat.0)) }
        ensures seat { OnOk result (is_seat (state_of self.now) seat.0 ≡ true) }
        ensures err { IfErr result (Refuses (about_seat (state_of self.now) seat.0)) }
    {
        if !self.is_seat(seat) {
            return Err(Fault::UnknownSeat);
        }
        if self.request_of(seat).is_some() {
            return Err(Fault::Pending);
        }
        Ok(())
    }

    // The faults of a call about a lock.
    pub(crate) fn about_lock(&self, seat: SeatNo, lock: LockNo) -> Result<(), Fault>
        ensures ok { OnOk result (Admits (about_lock (state_of self.now) seat.0 lock.0)) }
        ensures seat { OnOk result (is_seat (state_of self.now) seat.0 ≡ true) }
        ensures lock { OnOk result (is_live (state_of self.now) lock.0 ≡ true) }
        ensures err { IfErr result (Refuses (about_lock (state_of self.now) seat.0 lock.0)) }
    {
        if !self.is_seat(seat) {
            return Err(Fault::UnknownSeat);
        }
        if !self.is_live(lock) {
            return Err(Fault::UnknownLock);
        }
        Ok(())
    }

    // The faults of a call that asks for a lock, or tries it.
    #[inline(always)]
    pub(crate) fn before_acquiring(
        &self,
        seat: SeatNo,
        lock: LockNo,
        mode: Mode,
        site: Site,
    ) -> Result<(), Fault>
        ensures ok { OnOk result (Admits
            (before_acquiring (state_of self.now) seat.0 lock.0 mode site)) }
        ensures seat { OnOk result (is_seat (state_of self.now) seat.0 ≡ true) }
        ensures lock { OnOk result (is_live (state_of self.now) lock.0 ≡ true) }
        ensures err { IfErr result (Refuses
            (before_acquiring (state_of self.now) seat.0 lock.0 mode site)) }
    {
        self.about_lock(seat, lock)?;
        if !self.is_file(site.file) {
            return Err(Fault::UnknownFile);
        }
        if !mode.is_exclusive() && !self.class_of_lock(lock).is_shareable() {
            return Err(Fault::ModeNotAllowed);
        }
        if self.request_of(seat).is_some() {
            return Err(Fault::Pending);
        }
        if self.is_too_deep(seat, lock) {
            return Err(Fault::RecursionTooDeep);
        }
        Ok(())
    }

    // The faults of a call about a lock by a seat that asks for nothing.
    pub(crate) fn before_naming(&self, seat: SeatNo, lock: LockNo) -> Result<(), Fault>
        ensures ok { OnOk result (Admits (before_naming (state_of self.now) seat.0 lock.0)) }
        ensures seat { OnOk result (is_seat (state_of self.now) seat.0 ≡ true) }
        ensures lock { OnOk result (is_live (state_of self.now) lock.0 ≡ true) }
        ensures err { IfErr result (Refuses (before_naming (state_of self.now) seat.0 lock.0)) }
    {
        self.about_lock(seat, lock)?;
        if self.request_of(seat).is_some() {
            return Err(Fault::Pending);
        }
        Ok(())
    }

    // The request for this lock that is answered.
    pub(crate) fn before_answering(&self, seat: SeatNo, lock: LockNo) -> Result<Request, Fault>
        ensures ok { OnOk result (Admits (before_answering (state_of self.now) seat.0 lock.0)) }
        ensures request { IfOk result (λ q. (seat_at (state_of self.now) seat.0).pending ≡ Some q) }
        ensures err { IfErr result (Refuses (before_answering (state_of self.now) seat.0 lock.0)) }
    {
        self.about_lock(seat, lock)?;
        match self.request_of(seat) {
            Some(request) if request.lock.0 == lock.0 => Ok(request),
            _ => Err(Fault::NotRequested),
        }
    }
}

// What is asked of a new lock.
impl Verifier {
    // Whether the type with this name has another class.
    pub(crate) fn is_otherwise(&self, type_name: &str, class: Class) -> bool
        ensures { result ≡ is_otherwise type_name.now class (state_of self.now).known.types }
    {
        self.known.names().is_otherwise(type_name, class)
    }

    // Whether a type is new and no number is left for it.
    pub(crate) fn is_types_full(&self, type_name: &str) -> bool
        ensures { result ≡ (not (is_enrolled type_name.now (state_of self.now).known.types)
            && nat_le (state_of self.now).sizes.types (length (state_of self.now).known.types)) }
    {
        let names = self.known.names();
        !is_enrolled(names, type_name) && self.limits.types() as usize <= names.len()
    }

    // The number of the next lock, where one is left.
    pub(crate) fn next_lock(&self) -> Option<LockNo>
        ensures left { is_some result
            ≡ not (nat_le (state_of self.now).sizes.locks
            (length (state_of self.now).known.locks)) }
        ensures number { IfSome result (λ l. l.0 ≡ length (state_of self.now).known.locks + 1) }
    {
        let locks = self.known.locks().len();
        if self.limits.locks() as usize <= locks {
            return None;
        }
        Some(LockNo(locks as u32 + 1))
    }
}
