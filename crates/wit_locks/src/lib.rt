//! Locks that a shared verifier watches: a gate each, and the calls that tell the verifier of it.
//! They guard no data, as FreeBSD's.
#![tactic(auto)]

mod acquiring;
mod guarded;
mod held;
mod kinds;
mod lock;
mod mutexes;
mod pairing;
mod releasing;
mod shareable;
mod turning;

pub use guarded::{Guarded, Task, Unfinished};
pub use held::{Held, abandon};
pub use kinds::{
    Kind, Mutex, MutexClass, RwClass, Shareable, ShareableClass, SleepClass, SpinClass, SxClass,
};
pub use lock::{Lock, Mtx, Rw, Spin, Sx};
