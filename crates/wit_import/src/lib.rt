//! Import: lines in which a script tells how threads acquire and release locks, as a trace. Of all
//! requests those are written whose pairs of types are new.
#![tactic(auto)]

mod blocks;
mod events;
mod held;
mod importing;
pub mod laws;
mod names;
mod pairs;
mod reading;
mod telling;
mod words;

pub use events::{Acquisition, Event, LockType, Release, Sharing};
pub use importing::{Counts, import};
pub use reading::{Keyword, plain_line};
pub use telling::Teller;
pub use words::Word;
