//! The verifier of lock orders, and its log.
#![tactic(auto)]

mod acquiring;
mod calls;
mod circle;
mod defining;
mod log;
mod questions;
mod readers;
mod ready;
mod verifier;

pub use calls::Attempt;
pub use verifier::Verifier;
pub use wit_known::StartError;
pub use wit_waiting::circle_in;
