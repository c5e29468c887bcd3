//! The shares of all locks.

ghost use Rattle.std.specs.Prelude.{◌≡◌, ◌<◌, ◌≤◌, ◌+◌, ◌-◌, ◌^◌, ◌++◌, [], ◌∷◌, length, max};
ghost use Rattle.std.specs.Prelude.{replicate, OnOk, OnErr};
ghost use Rattle.std.specs.Option.{option_copied};
ghost use Rattle.wit_model.specs.Rules.Numbers.{with_number, IsGiven};
ghost use Rattle.wit_model.specs.Rules.Verdict.{is_exclusive};
ghost use Rattle.wit_model.specs.World.Scenes.{nobodys, raw_of, shares_of, is_admitted, is_only};
ghost use Rattle.wit_model.specs.World.Scenes.{got, freed, turned};

use crate::shares::Shares;
use std::alloc::{AllocError, Global};
use std::marker::Model;
use wit_model::{LockNo, Mode, SeatNo};

/// Who has how many shares of each lock, whatever is recorded of it. Locks count from 1, in the
/// order in which they were made; nobody has a share of any other.
#[derive(Drop)]
pub struct Raw {
    alloc: Global,
    /// How many locks were made.
    made: usize,
    /// The first of them; nobody ever had a share of the others.
    locks: Vec<Shares>,
}

impl Model for Raw {
    ghost use Rattle.std.specs.Prelude.{List};
    ghost use Rattle.wit_model.specs.World.Scenes.{RawLock};

    ghost Value = { List RawLock };

    ghost use Rattle.wit_world.specs.Shares.{raw_in, AreMade};

    ghost view = { raw_in };

    ghost invariant = { AreMade };
}

impl Raw {
    /// No lock was made.
    pub fn new(alloc: Global) -> Raw
        ensures { result ≡ [] }
    {
        Raw {
            alloc,
            made: 0,
            locks: Vec::new(alloc),
        }
    }

    /// How many locks were made.
    pub fn len(&self) -> usize
        ensures { result ≡ length self.now }
    {
        self.made
    }

    /// Whether a lock may be had in this mode: exclusively where nobody has it, the asker included,
    /// and shared where nobody has it exclusively.
    pub fn is_admitted(&self, lock: LockNo, mode: Mode) -> bool
        ensures { result ≡ is_admitted mode (raw_of self.now lock.0) }
    {
        match shares_with(&self.locks, lock) {
            Some(shares) => shares.is_admitted(mode),
            None => true,
        }
    }

    /// Whether a seat has the only share of a lock.
    pub fn is_only(&self, seat: SeatNo, lock: LockNo) -> bool
        ensures { result ≡ is_only seat.0 (raw_of self.now lock.0) }
    {
        match shares_with(&self.locks, lock) {
            Some(shares) => shares.is_only(seat),
            None => false,
        }
    }

    /// Whether a lock is had exclusively; as it was last where nobody has it, and exclusively where
    /// nobody ever had it.
    pub fn is_exclusive(&self, lock: LockNo) -> bool
        ensures { result ≡ is_exclusive (raw_of self.now lock.0).mode }
    {
        match shares_with(&self.locks, lock) {
            Some(shares) => shares.mode().is_exclusive(),
            None => true,
        }
    }

    /// How many shares of a lock a seat has.
    pub fn shares(&self, seat: SeatNo, lock: LockNo) -> u64
        ensures { result ≡ shares_of self.now seat.0 lock.0 }
    {
        match shares_with(&self.locks, lock) {
            Some(shares) => shares.of(seat),
            None => 0,
        }
    }
}

impl Raw {
    /// A lock is made, with the next number. It takes no memory.
    pub fn made(&mut self)
        requires { length self.old < 2 ^ 64 - 1 }
        ensures { self.new ≡ self.old ++ nobodys ∷ [] }
    {
        self.made += 1;
    }

    /// A seat gets a share more of a lock, in this mode.
    ///
    /// # Errors
    /// Want of memory alone; nothing is changed then.
    pub fn take(&mut self, seat: SeatNo, lock: LockNo, mode: Mode) -> Result<(), AllocError>
        requires made { IsGiven self.old lock.0 }
        requires few { shares_of self.old seat.0 lock.0 < 2 ^ 64 - 1 }
        ensures ok { OnOk result (self.new ≡ got seat.0 lock.0 mode self.old) }
        ensures err { OnErr result (self.new ≡ self.old) }
    {
        reach(self.alloc, &mut self.locks, lock)?;
        let shares = &mut self.locks[lock.0 as usize - 1];
        shares.add(seat, mode)?;
        Ok(())
    }

    /// A seat has one share of a lock fewer. It takes no memory.
    #[inline(always)]
    pub fn free(&mut self, seat: SeatNo, lock: LockNo)
        requires { 0 < shares_of self.old seat.0 lock.0 }
        ensures { self.new ≡ freed seat.0 lock.0 self.old }
    {
        let shares = &mut self.locks[lock.0 as usize - 1];
        shares.remove(seat);
    }

    /// All shares of a lock, of which this seat has one, are in this mode from now on. It takes no
    /// memory.
    pub fn turn(&mut self, seat: SeatNo, lock: LockNo, mode: Mode)
        requires { 0 < shares_of self.old seat.0 lock.0 }
        ensures { self.new ≡ turned lock.0 mode self.old }
    {
        let shares = &mut self.locks[lock.0 as usize - 1];
        shares.turn(mode);
    }
}

// The shares of the lock with this number; `None` where nobody ever had one.
fn shares_with(locks: &[Shares], lock: LockNo) -> Option<&Shares>
    ensures { option_copied result ≡ with_number locks.now lock.0 }
{
    if lock.0 == 0 {
        return None;
    }
    locks.get(lock.0 as usize - 1)
}

// Has a place for each lock up to this one.
fn reach(alloc: Global, locks: &mut Vec<Shares>, lock: LockNo) -> Result<(), AllocError>
    ensures same { locks.new.items ≡ locks.old.items
        ++ replicate (length locks.new.items - length locks.old.items) nobodys }
    ensures longer { length locks.old.items ≤ length locks.new.items }
    ensures within { length locks.new.items ≤ max (length locks.old.items) lock.0 }
    ensures ok { OnOk result (lock.0 ≤ length locks.new.items) }
{
    while locks.len() < lock.0 as usize {
        locks.push(Shares::none(alloc))?;
    }
    Ok(())
}
