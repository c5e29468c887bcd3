//! Gates: what lets threads past one at a time, or many together that share it. A lock is a gate
//! and its number with a verifier.
#![tactic(auto)]

mod claim;
mod gate;
mod left;
mod met;
mod rule;
mod ticket;
mod wait_gate;
mod waiting;
mod word;

pub use claim::Claim;
pub use gate::Gate;
pub use left::Left;
pub use met::Met;
pub use rule::Counts;
pub use ticket::Ticket;
pub use wait_gate::{CondGate, SpinGate, WaitGate};
pub use waiting::{Sleeping, Spinning, Waiting};
pub use word::{InTurn, Turn, Word};

#[cfg(test)]
mod tests;
