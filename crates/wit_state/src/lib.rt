//! What a verifier knows, in lines for programs, and whether its log is clean.
#![tactic(auto)]

mod circles;
mod clean;
mod fields;
mod hindrances;
mod orders;
mod seats;
mod state;

pub use clean::{clean_text, is_clean_so_far};
pub use hindrances::{Hindrance, ends_hindered, hindrance_of};
pub use state::state_text;
