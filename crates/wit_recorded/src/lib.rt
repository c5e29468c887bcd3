//! The lines of a recording: what the recorder writes of a program, and the names of types that are
//! added to it.
#![tactic(auto)]

mod fields;
mod lines;
mod pairs;
mod reading;

pub use lines::{Asked, Besides, How, Line, MOST_BESIDES, Misuse, Pair, PairLock, VERSION, Word};
pub use reading::{makes_lock, recorded_line};
pub use wit_fields::LineError;
