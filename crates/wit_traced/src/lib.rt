//! What lines of ftrace tell of locks: who acquires or releases which, and where. It knows nothing of
//! what was read before.
#![tactic(auto)]

mod contexts;
mod events;
mod heads;
mod kprobes;
pub mod laws;
mod lines;
mod lockdep;
mod lttng;
mod numbers;
mod pieces;
mod symbols;

pub use contexts::{Context, Masked, Preemption};
pub use events::{Acquired, Action, Call, Deed, Kind, MutexDeed, Reading, Told};
pub use lines::told_of;
pub use lttng::mutex_told;
pub use numbers::decimal;
pub use pieces::{before, before_last, begins, behind_last, has, rest};
pub use symbols::{Symbol, symbol_of};
