//! How much a verifier holds.

ghost use Rattle.std.specs.Prelude.{◌≡◌, ◌↔◌, ◌<◌, ◌≤◌, IsSome, IfSome, IsTrue};
ghost use Rattle.wit_model.specs.Rules.Numbers.{IsNumber};
ghost use Rattle.wit_model.specs.Rules.Sizes.{AreWithinLimits, sizes_of};

use std::marker::Model;

/// How many seats, types, locks, chunks and log entries a verifier has room for.
#[derive(Clone, Copy, Debug)]
pub struct Limits {
    seats: u32,
    types: u32,
    locks: u32,
    chunks: u32,
    log: u32,
}

impl Model for Limits {
    ghost use Rattle.wit_model.specs.Rules.Sizes.{Sizes, AreWithinLimits, sizes_of};

    ghost Value = { Sizes };

    ghost view = { λ l. sizes_of l.seats l.types l.locks l.chunks l.log };

    ghost invariant = { λ l. AreWithinLimits (sizes_of l.seats l.types l.locks l.chunks l.log) };

    ghost inverse = { λ s. record {
      seats = s.seats;
      types = s.types;
      locks = s.locks;
      chunks = s.chunks;
      log = s.log;
    } };
}

impl Limits {
    /// The greatest number of seats.
    pub const MOST_SEATS: u32 = 256;

    /// The greatest number of lock types.
    pub const MOST_TYPES: u32 = 1_023;

    /// The greatest number of locks.
    pub const MOST_LOCKS: u32 = 65_536;

    /// The greatest number of chunks of held locks.
    pub const MOST_CHUNKS: u32 = 65_536;

    /// The greatest number of entries of the log.
    pub const MOST_ENTRIES: u32 = 16_777_216;

    /// How many source files may have numbers: always so many.
    pub const MOST_FILES: u32 = 65_535;

    /// How often a seat may have acquired a lock: always so often.
    pub const MOST_ACQUISITIONS: u32 = 65_536;

    /// The greatest recursion count: how often it may have acquired the lock again.
    pub const DEEPEST: u16 = 65_535;

    /// Limits with these numbers: `None` exactly where one is 0 or over its greatest value, which
    /// is 256 seats, 1,023 types, 65,536 locks, 65,536 chunks and 16,777,216 log entries.
    pub fn new(seats: u32, types: u32, locks: u32, chunks: u32, log: u32) -> Option<Limits>
        ensures within { IsSome result ↔ AreWithinLimits (sizes_of seats types locks chunks log) }
        ensures value { IfSome result (λ l. l ≡ sizes_of seats types locks chunks log) }
    {
        let good = is_number(Limits::MOST_SEATS, seats)
            && is_number(Limits::MOST_TYPES, types)
            && is_number(Limits::MOST_LOCKS, locks)
            && is_number(Limits::MOST_CHUNKS, chunks)
            && is_number(Limits::MOST_ENTRIES, log);
        if !good {
            return None;
        }
        Some(Limits {
            seats,
            types,
            locks,
            chunks,
            log,
        })
    }
}

impl Limits {
    /// How many seats.
    pub fn seats(&self) -> u32
        ensures value { result ≡ self.now.seats }
        ensures positive { 0 < result }
        ensures within { result ≤ Limits.MOST_SEATS }
    {
        self.seats
    }

    /// How many lock types.
    pub fn types(&self) -> u32
        ensures value { result ≡ self.now.types }
        ensures positive { 0 < result }
        ensures within { result ≤ Limits.MOST_TYPES }
    {
        self.types
    }

    /// How many locks, over the verifier's whole life.
    pub fn locks(&self) -> u32
        ensures value { result ≡ self.now.locks }
        ensures within { result ≤ Limits.MOST_LOCKS }
    {
        self.locks
    }

    /// How many chunks of held locks.
    pub fn chunks(&self) -> u32
        ensures value { result ≡ self.now.chunks }
        ensures positive { 0 < result }
        ensures within { result ≤ Limits.MOST_CHUNKS }
    {
        self.chunks
    }

    /// How many entries of the log.
    pub fn log(&self) -> u32
        ensures value { result ≡ self.now.log }
        ensures within { result ≤ Limits.MOST_ENTRIES }
    {
        self.log
    }
}

fn is_number(most: u32, number: u32) -> bool
    ensures { IsTrue result ↔ IsNumber most number }
{
    0 < number && number <= most
}
