//! Files of lock orders, merged: each order once, with how many runs met it, and which of them last.
#![tactic(auto)]

mod flaws;
mod machine;
mod merging;
mod reading;
mod rows;
mod standing;
mod texts;

pub use flaws::Flaw;
pub use machine::{Shown, merge_orders};
