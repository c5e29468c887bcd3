//! Which requests for locks a recorder writes to its stream, and with them which held locks.
//!
//! A request by a thread that holds locks is written, after all that the thread holds, unless each
//! of its pairs of types (held, asked) was written before. What was written is kept as sets of
//! pairs, in which the recorder looks up most requests itself.
#![tactic(auto)]

mod chain;
mod condensed;
mod lines;
mod row;

pub use chain::{Asked, Link, MOST_LINKS};
pub use condensed::Condensed;
pub use lines::{Kind, Line};
pub use row::{TYPES, WORDS};
