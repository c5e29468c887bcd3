//! A lock: its gate, and its number with the verifier.

ghost use Rattle.std.specs.Prelude.{◌≡◌, Err, Ok, MatchResult};
ghost use Rattle.std.specs.Option.{option_copied};
ghost use Rattle.wit_model.specs.declared.calls.Call.TheVariants.{Destroy, Init};
ghost use Rattle.wit_model.specs.declared.calls.Reply.TheVariants.{Made};
ghost use Rattle.wit_model.specs.Rules.Step.{AnswersOrFails};
ghost use Rattle.wit_core.specs.Replies.{new_lock};
ghost use Rattle.wit_shared.specs.Own.{Leaves};
ghost use Rattle.wit_locks.specs.Locking.{Enters, IsMade};

use crate::kinds::{Kind, Mutex, RwClass, Shareable, SleepClass, SpinClass, SxClass};
use std::marker::PhantomData;
use std::sync::Wait;
use wit_gates::Gate;
use wit_model::{Fault, LockFlags, LockNo};
use wit_shared::{Room, Seat, Shared};

/// A lock of this kind over any gate, which a shared verifier watches. It guards no data.
///
/// Each call takes the verifier with which the lock was made and a seat of it, which the type says
/// by its `J`. It calls the verifier as the thread of that seat, and never enters the gate under
/// the verifier's own lock. What it comes to is what the verifier answers; a fault of another call
/// than `new`, `destroy` and those that take a token leaves nothing but what it says.
pub struct Lock<J: Room, G: Gate, K: Kind> {
    pub(crate) number: LockNo,
    pub(crate) gate: G,
    room: PhantomData<J>,
    kind: PhantomData<K>,
}

impl<J: Room, G: Gate + Drop, K: Kind> Drop for Lock<J, G, K> {
    fn drop(self) {
        let Lock {
            number: _,
            gate: _,
            room: _,
            kind: _,
        } = self;
    }
}

/// A default mutex, as of mutex(9).
pub type Mtx<J, G> = Lock<J, G, Mutex<SleepClass>>;

/// A spin mutex, as of mutex(9).
pub type Spin<J, G> = Lock<J, G, Mutex<SpinClass>>;

/// A reader/writer lock, as of rwlock(9).
pub type Rw<J, G> = Lock<J, G, Shareable<RwClass>>;

/// A shared/exclusive lock, as of sx(9).
pub type Sx<J, G> = Lock<J, G, Shareable<SxClass>>;

impl<J: Room, G: Gate, K: Kind> Lock<J, G, K> {
    /// Makes a lock over a gate that nobody has. Its type is that of `type_name`, or of its own
    /// name where there is none.
    ///
    /// # Errors
    /// Those of `Shared::init`; the gate comes back.
    pub fn new<R: Wait>(
        rt: &R,
        shared: &Shared<J>,
        seat: &mut Seat<J>,
        name: &str,
        type_name: Option<&str>,
        flags: LockFlags,
        gate: G,
    ) -> Result<Lock<J, G, K>, (G, Fault)>
        ensures call { MatchResult result
            (λ l. Enters AnswersOrFails J.start
            (Init (new_lock name.now (option_copied type_name.entry) K.class flags))
            (Made l.number) seat.old seat.new)
            (λ e. Leaves AnswersOrFails J.start
            (Init (new_lock name.now (option_copied type_name.entry) K.class flags))
            (Err e.1) seat.old seat.new) }
        ensures gate { MatchResult result (λ l. l.gate ≡ gate) (λ e. e.0 ≡ gate) }
    {
        match shared.init(rt, seat, name, type_name, K::class(), flags) {
            Ok(number) => Ok(Lock {
                number,
                gate,
                room: PhantomData,
                kind: PhantomData,
            }),
            Err(fault) => Err((gate, fault)),
        }
    }

    /// Its number with the verifier.
    pub fn number(&self) -> LockNo
        ensures { result ≡ self.now.number }
    {
        self.number
    }

    /// Takes the lock apart: its gate is left. Its number, name and type stay with the verifier,
    /// for texts.
    ///
    /// # Errors
    /// Those of `Shared::destroy`; the lock comes back.
    pub fn destroy<R: Wait>(
        self,
        rt: &R,
        shared: &Shared<J>,
        seat: &mut Seat<J>,
    ) -> Result<G, (Lock<J, G, K>, Fault)>
        ensures call { MatchResult result
            (λ gate. IsMade AnswersOrFails J.start (Destroy self.number) seat.old seat.new)
            (λ e. Leaves AnswersOrFails J.start (Destroy self.number) (Err e.1) seat.old seat.new) }
        ensures gate { MatchResult result (λ gate. gate ≡ self.gate) (λ e. e.0 ≡ self) }
    {
        if let Err(fault) = shared.destroy(rt, seat, self.number) {
            return Err((self, fault));
        }
        let Lock {
            number: _,
            gate,
            room: _,
            kind: _,
        } = self;
        Ok(gate)
    }
}
