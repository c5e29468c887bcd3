//! The orders of a JSON report as text for dot (Graphviz), which draws them.
#![tactic(auto)]

mod arrows;
mod dot;
mod graph;
mod quotes;

pub use dot::{write_dot, write_pictures};
pub use quotes::put_quoted;
