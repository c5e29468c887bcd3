//! The locks that were made.

ghost use Rattle.std.specs.Prelude.{◌≡◌, ◌<◌, ◌++◌, [], ◌∷◌, map, length, OnOk};
ghost use Rattle.std.specs.Option.{option_copied, option_map};
ghost use Rattle.wit_model.specs.declared.locks.Lock.{Lock};
ghost use Rattle.wit_model.specs.Rules.Locks.{lock_at};
ghost use Rattle.wit_model.specs.Rules.Numbers.{with_number};

use std::alloc::{AllocError, Global};
use std::marker::Model;
use wit_model::{Class, Lock, LockFlags, LockNo, NewLock, TypeNo};

/// The locks that were made, by their numbers: the first has number 1.
#[derive(Drop)]
pub struct Locks {
    /// What each was made as.
    made: Vec<NewLock>,
    /// The type of each. They stand by themselves, so that a look through held locks reads numbers
    /// and no whole locks.
    types: Vec<TypeNo>,
}

impl Model for Locks {
    ghost use Rattle.wit_known.specs.MadeLocks.{MadeLocks};

    ghost Value = { MadeLocks };

    ghost use Rattle.wit_known.specs.TypedLocks.{made_in, AreTyped};

    ghost view = { made_in };

    ghost invariant = { AreTyped };
}

impl Locks {
    /// No lock was made.
    pub fn new(alloc: Global) -> Locks
        ensures { result ≡ record { locks = []; spare = result.spare } }
    {
        Locks {
            made: Vec::new(alloc),
            types: Vec::new(alloc),
        }
    }

    /// How many were made.
    pub fn len(&self) -> usize
        ensures { result ≡ length self.now.locks }
    {
        self.made.len()
    }

    /// The type of each, in the order of their numbers.
    pub fn types(&self) -> &[TypeNo]
        ensures { result.now ≡ map (λ (lock : Lock). lock.type_no) self.now.locks }
    {
        &self.types
    }

    /// The type of a lock; `None` for one that was never made.
    pub fn type_with(&self, lock: LockNo) -> Option<TypeNo>
        ensures { result
            ≡ option_map (λ (found : Lock). found.type_no) (with_number self.now.locks lock.0) }
    {
        with_number(&self.types, lock).copied()
    }

    /// What a lock was made as; `None` for one that was never made.
    pub fn made_as(&self, lock: LockNo) -> Option<&NewLock>
        ensures { option_copied result
            ≡ option_map (λ (found : Lock). found.made) (with_number self.now.locks lock.0) }
    {
        with_number(&self.made, lock)
    }

    /// The type of a lock; 0 for one that was never made.
    pub fn type_of(&self, lock: LockNo) -> TypeNo
        ensures { result ≡ (lock_at self.now.locks lock.0).type_no }
    {
        match self.type_with(lock) {
            Some(type_no) => type_no,
            None => TypeNo(0),
        }
    }

    /// What a lock allows; nothing for one that was never made.
    pub fn flags_of(&self, lock: LockNo) -> LockFlags
        ensures { result ≡ (lock_at self.now.locks lock.0).made.flags }
    {
        match self.made_as(lock) {
            Some(made) => made.flags,
            None => LockFlags(0),
        }
    }

    /// The class of a lock; that of a sleep mutex for one that was never made.
    pub fn class_of(&self, lock: LockNo) -> Class
        ensures { result ≡ (lock_at self.now.locks lock.0).made.class }
    {
        match self.made_as(lock) {
            Some(made) => made.class,
            None => Class::SleepMutex,
        }
    }
}

impl Locks {
    /// Makes room for one lock more.
    ///
    /// # Errors
    /// Want of memory alone.
    pub fn make_room(&mut self) -> Result<(), AllocError>
        ensures same { self.new ≡ record self.old { spare = self.new.spare } }
        ensures ok { OnOk result (0 < self.new.spare) }
    {
        self.made.reserve(1)?;
        self.types.reserve(1)?;
        Ok(())
    }

    /// Makes the next lock. It takes no memory.
    pub fn push(&mut self, lock: Lock)
        requires { 0 < self.old.spare }
        ensures { self.new ≡ record self.old {
          locks = self.old.locks ++ lock ∷ [];
          spare = self.new.spare;
        } }
    {
        let Lock { type_no, made } = lock;
        self.made.push_reserved(made);
        self.types.push_reserved(type_no);
    }
}

// What has this lock's number.
fn with_number<T>(items: &[T], lock: LockNo) -> Option<&T>
    ensures { option_copied result ≡ with_number items.now lock.0 }
{
    if lock.0 == 0 {
        return None;
    }
    items.get(lock.0 as usize - 1)
}
