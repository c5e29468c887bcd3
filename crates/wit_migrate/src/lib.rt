//! The migration of a trace of version 1 to version 2 of the format, as it is read.
#![tactic(auto)]

mod behind;
mod calls;
mod endings;
mod headers;
mod migrating;
mod preludes;
mod step_lines;
mod steps;
mod texts;

pub use migrating::{migrate, migrate_through};
