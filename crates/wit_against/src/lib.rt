//! Lines of lock orders, judged one after the other: each that closes a circle with those that were
//! kept before it is told with the lines that lead back.
#![tactic(auto)]

mod answers;
mod entering;
mod judging;
pub mod laws;
mod orders;

pub use judging::judge_orders;
