//! The replay of a trace of a lock order verifier.
#![tactic(auto)]

mod replaying;
mod status;

pub use replaying::{replay, replay_through};
pub use status::{BAD_TRACE, FAILED, NOTHING_REPORTED, REPORTED, status_of};
pub use wit_grammar::{LineError, parse_line, print_line, spelled};
pub use wit_lines::View;
pub use wit_stream::{Failures, Ports, ReplayError, Summary};
