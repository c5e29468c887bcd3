//! The locks that the threads take.

use crate::gates::Fickle;
use std::alloc::Global;
use std::sync::Wait;
use wit_gates::{Gate, SpinGate};
use wit_locks::{Kind, Lock, Mtx, Rw, Spin, Sx};
use wit_model::{Fault, LockFlags, LockNo};
use wit_shared::{Room, Seat, Shared};

/// A lock of any class.
#[derive(Drop)]
pub(crate) enum Watched<J: Room> {
    Mutex(Mtx<J, Fickle>),
    Spin(Spin<J, SpinGate>),
    Rw(Rw<J, Fickle>),
    Sx(Sx<J, SpinGate>),
}

// How many types the locks of a class have.
const TYPES: u32 = 5;

/// The lock with this number, of so many. The last fifth are spin mutexes, which are taken behind
/// all others; of the others each third is of one class. Locks of one type are apart, so that their
/// types have no order.
///
/// # Errors
/// Those of `Shared::init`.
pub(crate) fn make<J: Room, R: Wait>(
    rt: &R,
    alloc: Global,
    shared: &Shared<J>,
    seat: &mut Seat<J>,
    number: u32,
    count: u32,
) -> Result<Watched<J>, Fault> {
    if number >= count - count / 5 {
        let lock = lock_of(rt, alloc, shared, seat, number, "spin", spin_gate(alloc))?;
        return Ok(Watched::Spin(lock));
    }
    Ok(match number % 3 {
        0 => {
            let lock = lock_of(rt, alloc, shared, seat, number, "mutex", Fickle::new(alloc))?;
            Watched::Mutex(lock)
        }
        1 => {
            let lock = lock_of(rt, alloc, shared, seat, number, "rw", Fickle::new(alloc))?;
            Watched::Rw(lock)
        }
        _ => {
            let lock = lock_of(rt, alloc, shared, seat, number, "sx", spin_gate(alloc))?;
            Watched::Sx(lock)
        }
    })
}

fn spin_gate(alloc: Global) -> Result<SpinGate, Fault> {
    Ok(SpinGate::new(alloc)?)
}

// A lock of one of the types of its class.
fn lock_of<J: Room, R: Wait, G: Gate + Drop, K: Kind>(
    rt: &R,
    alloc: Global,
    shared: &Shared<J>,
    seat: &mut Seat<J>,
    number: u32,
    class: &str,
    gate: Result<G, Fault>,
) -> Result<Lock<J, G, K>, Fault> {
    let name = format!(in alloc; "lock {number}")?;
    let part = number.wrapping_mul(7) % TYPES;
    let type_name = format!(in alloc; "{class} {part}")?;
    let type_name = Some(type_name.as_str());
    let flags = LockFlags((number % 4) as u8);
    match Lock::new(rt, shared, seat, name.as_str(), type_name, flags, gate?) {
        Ok(lock) => Ok(lock),
        Err((_gate, fault)) => Err(fault),
    }
}

// Takes a lock apart: its gate is left.
fn gate_of<J: Room, R: Wait, G: Gate + Drop, K: Kind>(
    rt: &R,
    shared: &Shared<J>,
    seat: &mut Seat<J>,
    lock: Lock<J, G, K>,
) -> Result<G, Fault> {
    match lock.destroy(rt, shared, seat) {
        Ok(gate) => Ok(gate),
        Err((_lock, fault)) => Err(fault),
    }
}

impl<J: Room> Watched<J> {
    /// Its number with the verifier.
    pub(crate) fn number(&self) -> LockNo {
        match self {
            Watched::Mutex(lock) => lock.number(),
            Watched::Spin(lock) => lock.number(),
            Watched::Rw(lock) => lock.number(),
            Watched::Sx(lock) => lock.number(),
        }
    }

    /// Takes the lock apart, which nobody has, and tells whether its gate let in whom it should.
    pub(crate) fn destroy<R: Wait>(
        self,
        rt: &R,
        shared: &Shared<J>,
        seat: &mut Seat<J>,
    ) -> Result<bool, Fault> {
        match self {
            Watched::Mutex(lock) => is_right(gate_of(rt, shared, seat, lock)),
            Watched::Rw(lock) => is_right(gate_of(rt, shared, seat, lock)),
            Watched::Spin(lock) => is_gone(gate_of(rt, shared, seat, lock)),
            Watched::Sx(lock) => is_gone(gate_of(rt, shared, seat, lock)),
        }
    }
}

fn is_right(gate: Result<Fickle, Fault>) -> Result<bool, Fault> {
    Ok(gate?.is_right())
}

// A plain gate is always right.
fn is_gone(gate: Result<SpinGate, Fault>) -> Result<bool, Fault> {
    let _gate = gate?;
    Ok(true)
}
