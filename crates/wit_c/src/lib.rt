//! The verifier for programs in C: each export is a call of the verifier in a place that C holds.
//!
//! An export of which C doesn't keep its part (`libwitness/verifier.h`) isn't spoken of here. Each
//! other answers, whatever numbers it is given: none has a `requires`.
#![tactic(auto)]

mod calls;
mod details;
mod handle;
mod kept_verifier;
mod lists;
mod numbers;
mod parts;
mod place;
mod questions;
mod starting;
mod structures;
mod telling;
mod texts;
mod views;
