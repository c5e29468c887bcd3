//! What a clean recording says of threads whose every call it needn't have: the laws, and whether a
//! log is clean.
#![tactic(auto)]

mod clean;
pub mod laws;

pub use clean::{is_clean, is_clean_call};
