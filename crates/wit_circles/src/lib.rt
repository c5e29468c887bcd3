//! Orders between types, judged one after the other: each that closes a circle with those that were
//! kept before it is told, with a way that leads back; any other is kept.
#![tactic(auto)]

mod judging;
mod kept;
pub mod laws;
mod orders;
mod ranks;
mod search;

pub use judging::judge;
pub use orders::{Against, Order};
