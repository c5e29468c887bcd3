//! The kinds of locks, as types: mutexes and locks that can be shared, each of one of their classes.

ghost use Rattle.std.specs.Prelude.{◌≡◌};
ghost use Rattle.wit_model.specs.declared.locks.Class.{Class};
ghost use Rattle.wit_model.specs.declared.locks.Class.TheVariants.{SleepMutex, SpinMutex, Rw, Sx};

use std::marker::PhantomData;
use wit_model::Class;

/// A kind of locks, of one class.
pub trait Kind {
    // Its class.
    ghost class: { Class };

    /// Its class.
    fn class() -> Class
        ensures { result ≡ class };
}

/// A class of mutexes.
pub trait MutexClass: Kind {}

/// A class of locks that can be shared.
pub trait ShareableClass: Kind {}

/// Mutexes of a class: who has one has it alone.
pub struct Mutex<C> {
    class: PhantomData<C>,
}

/// Locks of a class that are had alone or shared.
pub struct Shareable<C> {
    class: PhantomData<C>,
}

impl<C: MutexClass> Kind for Mutex<C> {
    ghost class = { C.class };

    fn class() -> Class {
        C::class()
    }
}

impl<C: ShareableClass> Kind for Shareable<C> {
    ghost class = { C.class };

    fn class() -> Class {
        C::class()
    }
}

/// The class of default mutexes of mutex(9).
pub struct SleepClass;

/// That of spin mutexes of mutex(9).
pub struct SpinClass;

/// That of reader/writer locks of rwlock(9).
pub struct RwClass;

/// That of shared/exclusive locks of sx(9).
pub struct SxClass;

impl MutexClass for SleepClass {}

impl MutexClass for SpinClass {}

impl ShareableClass for RwClass {}

impl ShareableClass for SxClass {}

impl Kind for SleepClass {
    ghost class = { SleepMutex };

    fn class() -> Class {
        Class::SleepMutex
    }
}

impl Kind for SpinClass {
    ghost class = { SpinMutex };

    fn class() -> Class {
        Class::SpinMutex
    }
}

impl Kind for RwClass {
    ghost class = { Rw };

    fn class() -> Class {
        Class::Rw
    }
}

impl Kind for SxClass {
    ghost class = { Sx };

    fn class() -> Class {
        Class::Sx
    }
}
