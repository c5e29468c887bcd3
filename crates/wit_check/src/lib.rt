//! The verdict of a check: what WITNESS says of a request for a lock, by what its seat holds; and
//! that on an order which a call defines.
#![tactic(auto)]

mod again;
mod all_held;
mod answers;
mod basis;
mod chains;
mod definitions;
mod duplicates;
mod held;
mod learning;
mod orders;
mod reversals;
mod rules;

pub use answers::Verdict;
pub use basis::Basis;
pub use chains::Chains;
pub use definitions::define;
pub use learning::new_orders;
pub use rules::verdict;
