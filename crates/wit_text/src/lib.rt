//! The JSON report as text for a terminal, as `record` told it.
#![tactic(auto)]

mod callers;
mod lines;
mod reports;
mod shown;
mod text;
mod told;

pub use shown::put_shown;
pub use text::write_text;
