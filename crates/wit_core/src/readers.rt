//! What a verifier tells of itself, apart from its log.

ghost use Rattle.std.specs.Prelude.{◌≡◌, ◌≤◌, length, slice_get, IfSome, IfOk, IfErr};
ghost use Rattle.std.specs.Option.{option_copied, option_map};
ghost use Rattle.wit_model.specs.declared.calls.Request.{Request};
ghost use Rattle.wit_model.specs.declared.locks.Instance.{Instance};
ghost use Rattle.wit_model.specs.declared.faults.Fault.TheVariants.{OutOfMemory};
ghost use Rattle.wit_model.specs.declared.sizes.TheConstants.Limits.{MOST_TYPES, MOST_SEATS};
ghost use Rattle.wit_model.specs.Rules.Numbers.{with_number, IsNumber};
ghost use Rattle.wit_model.specs.Rules.Orders.{Before, is_direct, origin_of};
ghost use Rattle.wit_model.specs.Rules.State.{state_of, seat_at, chain_in, free, is_live, known_of};
ghost use Rattle.wit_model.specs.Rules.State.{orders_of, types_of, typed_locks};
ghost use Rattle.wit_model.specs.Rules.Step.{held_by};
ghost use Rattle.wit_model.specs.Trace.Paths.{path, path_numbers};
ghost use Rattle.wit_matrix.specs.Relation.{LeadsBy};
ghost use Rattle.wit_core.specs.Held.{HoldAll};
ghost use Rattle.wit_known.specs.Live.{live_told};
ghost use Rattle.wit_core.specs.Numbered.{lock_name, lock_type, type_name, type_class, relation};

use crate::verifier::Verifier;
use wit_known::is_type;
use wit_model::{Class, Fault, FileNo, Instance, LockNo, Mode, Origin, Request, SeatNo, TypeNo};
use wit_waiting::Chunked;

// What the seats hold; `None` for a seat that there is not.
impl Verifier {
    /// How many seats there are.
    pub fn seats(&self) -> u16
        ensures value { result ≡ self.now.start.sizes.seats }
        ensures within { IsNumber MOST_SEATS result }
    {
        self.limits.seats() as u16
    }

    /// How many types there can be: the limit that it was made with.
    pub fn most_types(&self) -> u16
        ensures value { result ≡ self.now.start.sizes.types }
        ensures within { IsNumber MOST_TYPES result }
    {
        self.limits.types() as u16
    }

    /// What a seat has asked for: from its accepted `check` to its `note` or `give_up`.
    pub fn request(&self, seat: SeatNo) -> Option<Request>
        ensures { result ≡ (seat_at (state_of self.now) seat.0).pending }
    {
        self.seats.pending(seat)
    }

    /// The lock that a seat has asked for, and the mode: from its accepted `check` to its `note` or
    /// `give_up`.
    pub fn pending(&self, seat: SeatNo) -> Option<(LockNo, Mode)>
        ensures { result ≡ option_map (λ (request : Request). (request.lock, request.mode))
            (seat_at (state_of self.now) seat.0).pending }
    {
        let request = self.request(seat)?;
        Some((request.lock, request.mode))
    }

    /// How many times a seat has acquired again a lock that it holds, by what is recorded; `None`
    /// where it doesn't hold the lock.
    pub fn recorded(&self, seat: SeatNo, lock: LockNo) -> Option<u16>
        ensures { result ≡ option_map (λ (held : Instance). held.count)
            (held_by (state_of self.now) seat.0 lock.0) }
    {
        if !self.is_seat(seat) {
            return None;
        }
        let held = self.held(seat, lock)?;
        Some(held.count)
    }

    /// The lock of one kind that a seat holds at this place, counted from the oldest, 0; `None`
    /// beyond the newest.
    pub fn chain_at(&self, seat: SeatNo, spin: bool, place: usize) -> Option<Instance>
        ensures { result ≡ slice_get (chain_in spin (seat_at (state_of self.now) seat.0)) place }
    {
        if self.is_seat(seat) {
            self.seats.at(seat, spin, place)
        } else {
            None
        }
    }

    /// How many chunks no seat has.
    pub fn free_chunks(&self) -> usize
        ensures { result ≡ free (state_of self.now) }
    {
        self.seats.free_chunks()
    }

    /// The lists of chunks in which the seats hold their locks: that of the sleep kind of seat s is
    /// number 2s - 1, that of the spin kind 2s. Each chunk stands once in one of the lists or among
    /// the free ones.
    pub fn chunks(&self) -> &Chunked
        ensures { HoldAll self.now result.now }
    {
        self.seats.lists()
    }
}

/// What is known by number; `None` for a number that was never given.
impl Verifier {
    /// The name of a lock.
    pub fn lock_name(&self, lock: LockNo) -> Option<&str>
        ensures { option_copied result
            ≡ lock_name (typed_locks self.now.start self.now.history) lock.0 }
    {
        let made = self.known.locks().made_as(lock)?;
        Some(made.name.as_str())
    }

    /// Whether a lock was made under this number and isn't destroyed.
    pub fn is_live(&self, lock: LockNo) -> bool
        ensures { result ≡ is_live (state_of self.now) lock.0 }
    {
        self.known.is_live(lock)
    }

    /// The type of a lock.
    pub fn type_of(&self, lock: LockNo) -> Option<TypeNo>
        ensures { result ≡ lock_type (typed_locks self.now.start self.now.history) lock.0 }
    {
        self.known.locks().type_with(lock)
    }

    /// The name of a type.
    pub fn type_name(&self, number: TypeNo) -> Option<&str>
        ensures { option_copied result
            ≡ type_name (types_of self.now.start self.now.history) number.0 }
    {
        let names = self.known.names();
        if !is_type(names, number) {
            return None;
        }
        Some(names.name_of(number))
    }

    /// The class of a type.
    pub fn class_of(&self, number: TypeNo) -> Option<Class>
        ensures { result ≡ type_class (types_of self.now.start self.now.history) number.0 }
    {
        let names = self.known.names();
        if is_type(names, number) {
            Some(names.class_of(number))
        } else {
            None
        }
    }

    /// The name of a file.
    pub fn file_name(&self, file: FileNo) -> Option<&str>
        ensures { option_copied result ≡ with_number self.now.files file.0 }
    {
        let names = self.known.names();
        if 0 < file.0 && file.0 as usize <= names.files() {
            Some(names.file_name(file))
        } else {
            None
        }
    }

    /// How many types are known.
    pub fn types(&self) -> usize
        ensures value { result ≡ length (types_of self.now.start self.now.history) }
        ensures few { result ≤ MOST_TYPES }
    {
        self.known.names().len()
    }

    /// How many locks of a type are live: made and not destroyed.
    pub fn live(&self, number: TypeNo) -> Option<u32>
        ensures { result ≡ live_told (state_of self.now) number.0 }
    {
        let known = &self.known;
        if is_type(known.names(), number) {
            Some(known.live(number))
        } else {
            None
        }
    }

    /// Whether the order from one type to another was adopted.
    pub fn is_direct(&self, parent: TypeNo, child: TypeNo) -> bool
        ensures { result ≡ is_direct (orders_of self.now.start self.now.history) parent.0 child.0 }
    {
        self.known.orders().is_direct(parent, child)
    }

    /// Where the direct order from one type to another comes from; `None` where it wasn't adopted.
    pub fn origin(&self, parent: TypeNo, child: TypeNo) -> Option<Origin>
        ensures { result ≡ origin_of parent.0 child.0 (orders_of self.now.start self.now.history) }
    {
        self.known.orders().origin(parent, child)
    }

    /// The path of adopted orders from one type to another that goes each time to the least type:
    /// `None` where none leads there.
    ///
    /// # Errors
    /// `OutOfMemory` alone, and only where a path leads there.
    pub fn path(&self, from: TypeNo, to: TypeNo) -> Result<Option<Vec<TypeNo>>, Fault>
        ensures ok { IfOk result (λ p. path_numbers p
            ≡ path (orders_of self.now.start self.now.history)
            (length (types_of self.now.start self.now.history)) from.0 to.0) }
        ensures leads { IfOk result (λ p. IfSome (path_numbers p)
            (LeadsBy (orders_of self.now.start self.now.history) from.0 to.0)) }
        ensures err { IfErr result (λ e. (e ≡ OutOfMemory)
            × Before (orders_of self.now.start self.now.history) from.0 to.0) }
    {
        self.known.orders().path(from, to)
    }

    /// How one type is related to another, as the sum of 0x01 where the order from the first to the
    /// second was adopted, 0x02 where the first is before the second, 0x04 and 0x08 where they are
    /// so the other way round, and 0x10 where the pair was found in violation; `None` for a number
    /// that was never given.
    pub fn relation(&self, a: TypeNo, b: TypeNo) -> Option<u8>
        ensures { result ≡ relation (known_of self.now.start self.now.history) a.0 b.0 }
    {
        let known = &self.known;
        if is_type(known.names(), a) && is_type(known.names(), b) {
            Some(known.orders().cell(a, b))
        } else {
            None
        }
    }
}
