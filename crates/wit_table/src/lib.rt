//! The names that a lock order verifier knows: types with their classes, source files, and blessed
//! pairs.
#![tactic(auto)]

mod blessed;
mod files;
mod table;
mod types;

pub use table::Table;
