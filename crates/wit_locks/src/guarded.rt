//! A lock that guards data.

ghost use Rattle.std.specs.Prelude.{◌≡◌, Err, IfOk};
ghost use Rattle.wit_model.specs.declared.faults.Fault.{Fault};
ghost use Rattle.wit_locks.specs.declared.guarded.Unfinished.TheVariants.{NotAcquired, NotReleased};
ghost use Rattle.wit_locks.specs.declared.held.Held.{Held};
ghost use Rattle.wit_model.specs.declared.locks.Mode.TheVariants.{Exclusive};
ghost use Rattle.wit_locks.specs.Guarding.{Stays, Visits};
ghost use Rattle.wit_locks.specs.Locking.{FailsToAcquire, first_request};

use crate::held::Held;
use crate::kinds::Kind;
use crate::lock::Lock;
use std::sync::{Mutex, MutexGuard, Wait};
use wit_gates::Gate;
use wit_model::{Fault, Mode, Reply, Site};
use wit_shared::{Room, Seat, Shared};

/// What is done with guarded data, in one go.
pub trait Task<T> {
    /// What it comes to.
    type Out;

    // What is known of that, of the data before and after.
    ghost done: { Self → T → T → Self.Out → Type 0 };

    /// Does it, while the lock is held. `asked` is what the verifier answered to the request, which
    /// may be a report.
    fn run(self, value: &mut T, asked: Option<&Reply>) -> Self::Out
        ensures { done self value.old value.new result };
}

/// A task that didn't end as it should.
pub enum Unfinished<W, O, G: Gate> {
    /// It wasn't begun, since the lock wasn't acquired.
    NotAcquired(W, Fault),
    /// It was done, with this outcome, and the lock is held, since its release was refused.
    NotReleased(O, Held<G>, Fault),
}

/// A lock with data that is reached under it alone. It can't be forgotten to release it, since it
/// is held for the time of a task, which has no seat and so takes no other lock.
pub struct Guarded<J: Room, T, G: Gate, K: Kind> {
    lock: Lock<J, G, K>,
    value: Mutex<T>,
}

impl<J: Room, T: Drop, G: Gate + Drop, K: Kind> Drop for Guarded<J, T, G, K> {
    fn drop(self) {
        let Guarded { lock: _, value: _ } = self;
    }
}

impl<J: Room, T, G: Gate, K: Kind> Guarded<J, T, G, K> {
    /// Guards data by a lock, which nobody holds.
    pub fn new(lock: Lock<J, G, K>, value: T) -> Guarded<J, T, G, K>
        ensures { result.lock ≡ lock }
    {
        Guarded {
            lock,
            value: Mutex::new(value),
        }
    }

    /// The lock, for what is to be asked of it. Who acquires it so has no data.
    pub fn lock(&self) -> &Lock<J, G, K>
        ensures { result.now ≡ self.now.lock }
    {
        &self.lock
    }

    /// The lock, to be destroyed, and the data.
    pub fn into_parts(self) -> (Lock<J, G, K>, T)
        ensures { result.0 ≡ self.lock }
    {
        let Guarded { lock, value } = self;
        (lock, value.into_inner())
    }

    /// Acquires the lock exclusively, does the task with the data, and releases the lock.
    ///
    /// # Errors
    /// `NotAcquired` with the faults of a mutex's `lock`; the task comes back. `NotReleased` with
    /// those of `Lock::unlock`.
    pub fn with<R: Wait, W: Task<T>>(
        &self,
        rt: &R,
        shared: &Shared<J>,
        seat: &mut Seat<J>,
        site: Site,
        task: W,
    ) -> Result<W::Out, Unfinished<W, W::Out, G>>
        ensures calls { IfOk result (λ out. Visits J.start
            (first_request self.now.lock.number Exclusive site) seat.old seat.new) }
        ensures done { IfOk result (λ out. (before : T) × (after : T)
            × W.done task before after out) }
        ensures task { (back : W) → (fault : Fault) → result ≡ Err (NotAcquired back fault)
            → (back ≡ task)
            × FailsToAcquire J.start (first_request self.now.lock.number Exclusive site)
            ((met : G.Met) × G.refuses self.now.lock.gate Exclusive met) fault
            seat.old seat.new }
        ensures refused { (out : W.Out) → (held : Held G G.Ticket G.Met) → (fault : Fault)
            → result ≡ Err (NotReleased out held fault)
            → Stays J.start (first_request self.now.lock.number Exclusive site) fault
            seat.old seat.new }
        ensures held { (out : W.Out) → (held : Held G G.Ticket G.Met) → (fault : Fault)
            → result ≡ Err (NotReleased out held fault)
            → G.admits self.now.lock.gate Exclusive held.ticket
            × (held.hold.lock ≡ self.now.lock.number) × (held.hold.seat.0 ≡ seat.new.seat)
            × (held.hold.mode ≡ Exclusive) × (held.hold.depth ≡ 0) }
        ensures seat { (seat.new.seat ≡ seat.old.seat) × (seat.new.given ≡ seat.old.given) }
    {
        match self.lock.acquire(rt, shared, seat, Mode::Exclusive, site) {
            Ok(held) => {
                let out = self.done(rt, task, held.asked());
                match self.lock.unlock(rt, shared, seat, held) {
                    Ok(left) => match left {
                        None => Ok(out),
                        Some(held) => unreachable!(),
                    },
                    Err((held, fault)) => Err(Unfinished::NotReleased(out, held, fault)),
                }
            }
            Err(fault) => Err(Unfinished::NotAcquired(task, fault)),
        }
    }

    // Does the task with the data, which nobody else has.
    fn done<R: Wait, W: Task<T>>(&self, rt: &R, task: W, asked: Option<&Reply>) -> W::Out
        ensures { (before : T) × (after : T) × W.done task before after result }
    {
        let mut value = self.value.lock(rt);
        let out = task.run(&mut value, asked);
        let _ = MutexGuard::unlock(value);
        out
    }
}
