//! A world as it is kept while it goes on: a verifier, and beside it which shares of the locks
//! themselves threads have and where each stands in its sequence of steps.
#![tactic(auto)]

mod calls;
mod circle;
mod raw;
mod shares;
mod stages;
mod steps;
mod world;

pub use raw::Raw;
pub use world::{Unkept, World};
