//! The seats: what each holds, and what it has asked for.

ghost use Rattle.std.specs.Prelude.{◌≡◌, ◌≢◌, true, false, not, find, is_some, slice_get};
ghost use Rattle.std.specs.Prelude.{replicate, Ok, IfOk, IfErr, None, Some};
ghost use Rattle.wit_model.specs.declared.calls.Reply.TheVariants.{Unlocked};
ghost use Rattle.wit_model.specs.declared.faults.Fault.TheVariants.{OutOfMemory};
ghost use Rattle.wit_model.specs.declared.sizes.TheConstants.Limits.{MOST_CHUNKS, MOST_SEATS};
ghost use Rattle.wit_model.specs.Rules.Chunks.{IsList, IsPlaced, chain_of};
ghost use Rattle.wit_model.specs.Rules.Numbers.{is_given, IsGiven, IsNumber};
ghost use Rattle.wit_model.specs.Rules.Assertions.{assertion};
ghost use Rattle.wit_model.specs.Rules.Verdict.{is_of};
ghost use Rattle.wit_model.specs.Rules.Step.{is_for, released};
ghost use Rattle.wit_model.specs.Rules.Destroying.{uses};
ghost use Rattle.std.specs.List.{list_any};
ghost use Rattle.wit_held.specs.Chains.{IsOnce, IsShallow, is_unrecorded, after_record};
ghost use Rattle.wit_waiting.specs.Seats.{seat_view};
ghost use Rattle.wit_waiting.specs.Seats.{Holdings, idle_seating, seat_in, locks_in, free_in};
ghost use Rattle.wit_waiting.specs.Seats.{with_seat, having_released, has_no_room};
ghost use Rattle.wit_waiting.specs.Seats.{after_acquired, HoldFor};

mod asking;
mod turning;

use std::alloc::{AllocError, Global};
use std::marker::Model;
use wit_held::{assert_is, held, oldest_held, record, record_new, release};
use wit_model::chunks::{Lists, list_of};
use wit_model::{
    AssertAnswer, Fault, Instance, LockAssert, LockNo, Mode, Reply, Request, SeatNo, Watch,
};
use wit_pool::Pool;

/// The lists in which the seats hold their locks.
pub type Chunked = Pool;

/// The seats, by number from 1. Each has two lists of held locks, one a kind, and what it has asked
/// for.
#[derive(Drop)]
pub struct Seats {
    lists: Chunked,
    requests: Vec<Option<Request>>,
    // A list, and a lock that was asked for and that it doesn't hold: it isn't looked for again.
    unheld: Option<(u16, LockNo)>,
}

impl Model for Seats {
    ghost use Rattle.wit_waiting.specs.Seats.{Seating};

    ghost Value = { Seating };

    ghost use Rattle.wit_waiting.specs.Seated.{seating_in, AreSeated};

    ghost view = { seating_in };

    ghost invariant = { AreSeated };
}

impl Seats {
    /// So many seats, which hold nothing and have asked for nothing, and so many chunks for the
    /// locks that they will hold. All the room that the other calls will need is taken here.
    ///
    /// # Errors
    /// `OutOfMemory` alone.
    pub fn new(alloc: Global, seats: u32, chunks: u32) -> Result<Seats, Fault>
        requires seats { IsNumber MOST_SEATS seats }
        requires chunks { IsNumber MOST_CHUNKS chunks }
        ensures ok { IfOk result (λ s. s ≡ idle_seating seats chunks) }
        ensures err { IfErr result (λ e. e ≡ OutOfMemory) }
    {
        Ok(Seats {
            lists: Pool::new(alloc, chunks, 2 * seats as u16)?,
            requests: no_requests(alloc, seats)?,
            unheld: None,
        })
    }

    /// Whether there is a seat with this number.
    pub fn is_seat(&self, seat: SeatNo) -> bool
        ensures { result ≡ is_given self.now.seats seat.0 }
    {
        0 < seat.0 && seat.0 as usize <= self.requests.len()
    }

    /// What a seat has asked for.
    pub fn pending(&self, seat: SeatNo) -> Option<Request>
        ensures { result ≡ (seat_in self.now seat.0).pending }
    {
        if self.is_seat(seat) {
            self.request_of(seat)
        } else {
            None
        }
    }

    /// What a seat that there is has asked for.
    pub fn request_of(&self, seat: SeatNo) -> Option<Request>
        requires { IsGiven self.now.seats seat.0 }
        ensures { result ≡ (seat_in self.now seat.0).pending }
    {
        self.requests[seat.0 as usize - 1]
    }

    /// The lists: `list_of` numbers them. Each chunk stands once in one of them or among the free
    /// ones.
    pub fn lists(&self) -> &Chunked
        ensures { HoldFor self.now result.now }
    {
        &self.lists
    }

    /// How many chunks are free.
    pub fn free_chunks(&self) -> usize
        ensures { result ≡ free_in self.now }
    {
        self.lists.free_chunks()
    }

    /// A lock as a seat holds it, once at most: `wit_held::held` in its list.
    pub fn find(&self, seat: SeatNo, spin: bool, lock: LockNo) -> Option<Instance>
        requires seat { IsGiven self.now.seats seat.0 }
        requires once { IsOnce lock.0 (locks_in spin (seat_in self.now seat.0)) }
        ensures { result ≡ find (is_of lock.0) (locks_in spin (seat_in self.now seat.0)) }
    {
        if self.is_unheld(seat, spin, lock) {
            return None;
        }
        held(&self.lists, list_of(seat, spin), lock)
    }

    // Whether a seat is known not to hold a lock of this kind.
    fn is_unheld(&self, seat: SeatNo, spin: bool, lock: LockNo) -> bool
        requires { IsGiven self.now.seats seat.0 }
        ensures { result ≡ true
            → find (is_of lock.0) (locks_in spin (seat_in self.now seat.0)) ≡ None }
    {
        match self.unheld {
            Some((list, unheld)) => list == list_of(seat, spin) && unheld.0 == lock.0,
            None => false,
        }
    }

    /// Whether a seat holds a lock or asks for it.
    fn uses(&self, seat: SeatNo, lock: LockNo) -> bool
        requires { IsGiven self.now.seats seat.0 }
        ensures { result ≡ uses lock.0 (seat_view (seat_in self.now seat.0)) }
    {
        if self.holds(seat, false, lock) {
            return true;
        }
        if self.holds(seat, true, lock) {
            return true;
        }
        is_for(lock, self.request_of(seat))
    }

    // Whether a seat holds a lock of this kind.
    fn holds(&self, seat: SeatNo, spin: bool, lock: LockNo) -> bool
        requires { IsGiven self.now.seats seat.0 }
        ensures { result ≡ is_some (find (is_of lock.0) (locks_in spin (seat_in self.now seat.0))) }
    {
        oldest_held(&self.lists, list_of(seat, spin), lock).is_some()
    }

    /// Whether some seat holds a lock or asks for it.
    pub fn is_used(&self, lock: LockNo) -> bool
        ensures { result ≡ list_any (λ (holdings : Holdings). uses lock.0 (seat_view holdings))
            self.now.seats }
    {
        for place in 0..self.requests.len() {
            let seat = SeatNo(place as u16 + 1);
            if self.uses(seat, lock) {
                return true;
            }
        }
        false
    }

    /// The lock of one kind that a seat holds at this place, counted from the oldest, 0.
    pub fn at(&self, seat: SeatNo, spin: bool, place: usize) -> Option<Instance>
        requires { IsGiven self.now.seats seat.0 }
        ensures { result ≡ slice_get (locks_in spin (seat_in self.now seat.0)) place }
    {
        let lists = &self.lists;
        let list = list_of(seat, spin);
        if place < lists.len(list) {
            Some(lists.at(list, place))
        } else {
            None
        }
    }
}

impl Seats {
    /// What an assertion about a lock of this kind comes to: `wit_held::assert_is` in its list.
    pub fn assert_is(
        &self,
        seat: SeatNo,
        spin: bool,
        lock: LockNo,
        watch: Watch,
        flags: LockAssert,
    ) -> AssertAnswer
        requires { IsGiven self.now.seats seat.0 }
        ensures { result ≡ assertion watch flags
            (find (is_of lock.0) (locks_in spin (seat_in self.now seat.0))) }
    {
        assert_is(&self.lists, list_of(seat, spin), lock, watch, flags)
    }
}

/// What changes a seat. Nothing here takes memory.
impl Seats {
    /// A seat acquires a lock of this kind: `wit_held::record` in its list. False, and nothing is
    /// changed, where that needs a chunk and none is free.
    pub fn record(&mut self, seat: SeatNo, spin: bool, taken: Instance) -> bool
        requires seat { IsGiven self.old.seats seat.0 }
        requires once { IsOnce taken.lock.0 (locks_in spin (seat_in self.old seat.0)) }
        requires shallow { IsShallow taken.lock.0 (locks_in spin (seat_in self.old seat.0)) }
        ensures result { result ≡ not (has_no_room self.old seat.0 spin taken.lock.0) }
        ensures seats { self.new ≡ after_acquired seat.0 spin taken self.old }
    {
        let is_new = self.is_unheld(seat, spin, taken.lock);
        self.unheld = None;
        enter(&mut self.lists, list_of(seat, spin), taken, is_new)
    }

    /// A seat releases a lock of this kind in this mode: `wit_held::release` in its list, with its
    /// errors.
    pub fn release(
        &mut self,
        seat: SeatNo,
        spin: bool,
        lock: LockNo,
        mode: Mode,
        watch: Watch,
    ) -> Result<Reply, Fault>
        requires seat { IsGiven self.old.seats seat.0 }
        requires once { IsOnce lock.0 (locks_in spin (seat_in self.old seat.0)) }
        ensures result { result ≡ released watch mode
            (find (is_of lock.0) (locks_in spin (seat_in self.old seat.0))) }
        ensures seats { result ≡ Ok Unlocked
            → self.new ≡ with_seat seat.0 (having_released spin lock.0) self.old }
        ensures unchanged { result ≢ Ok Unlocked → self.new ≡ self.old }
    {
        self.unheld = None;
        release(&mut self.lists, list_of(seat, spin), lock, mode, watch)
    }
}

// Records an acquisition in a list, which is told where it doesn't hold the lock.
fn enter<L: Lists>(lists: &mut L, list: u16, taken: Instance, is_new: bool) -> bool
    requires list { IsList (L.chunks lists.old) list }
    requires once { IsOnce taken.lock.0 (chain_of (L.chunks lists.old) list) }
    requires shallow { IsShallow taken.lock.0 (chain_of (L.chunks lists.old) list) }
    requires new { is_new ≡ true
        → find (is_of taken.lock.0) (chain_of (L.chunks lists.old) list) ≡ None }
    ensures result { result ≡ not (is_unrecorded (L.chunks lists.old) list taken.lock.0) }
    ensures groups { (L.chunks lists.new).groups ≡ after_record (L.chunks lists.old) list taken }
    ensures size { (L.chunks lists.new).size ≡ (L.chunks lists.old).size }
    ensures placed { IsPlaced (L.chunks lists.new) }
    ensures unchanged { result ≡ false → L.chunks lists.new ≡ L.chunks lists.old }
{
    if is_new {
        record_new(lists, list, taken)
    } else {
        record(lists, list, taken)
    }
}

// Whether a request is for this lock.
fn is_for(lock: LockNo, request: Option<Request>) -> bool
    ensures { result ≡ is_for lock.0 request }
{
    match request {
        Some(request) => request.lock.0 == lock.0,
        None => false,
    }
}

// So many seats that have asked for nothing.
fn no_requests(alloc: Global, seats: u32) -> Result<Vec<Option<Request>>, AllocError>
    ensures { IfOk result (λ v. v.items ≡ replicate seats None) }
{
    let mut requests = Vec::new(alloc);
    for _seat in 0..seats {
        requests.push(None)?;
    }
    Ok(requests)
}
