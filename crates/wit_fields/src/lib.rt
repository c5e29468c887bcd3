//! The fields of a line of a trace: words, letters, numbers and names, each read from the bytes
//! that a line begins with, behind its space.
#![tactic(auto)]

mod errors;
pub mod letters;
pub mod names;
pub mod numbers;
pub mod words;

pub use errors::LineError;
