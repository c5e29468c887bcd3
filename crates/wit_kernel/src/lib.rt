//! Import of what tracers print of locks: lines of ftrace and of LTTng, as the trace of the events that
//! are gathered of them.
#![tactic(auto)]

mod acquisitions;
mod importing;
pub mod laws;
mod telling;

pub use importing::{Tracer, import_traced};
pub use wit_gathered::Settings;
