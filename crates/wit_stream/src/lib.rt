//! A stream of lines from any reader through a machine, whose texts go to any writer. It knows
//! nothing of locks.
#![tactic(auto)]

mod bad_lines;
mod lines;
mod machine;
mod ports;
mod stream;
mod summary;

pub use bad_lines::bad_text;
pub use machine::{Machine, Step};
pub use ports::{Failures, Ports};
pub use stream::{Pace, run};
pub use summary::{ReplayError, Summary};
