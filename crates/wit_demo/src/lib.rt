//! The demonstration: four threads take two mutexes in one order, and then one seat takes them in
//! the other.
#![tactic(auto)]

mod rounds;
mod showing;
mod telling;
mod threads;

pub use showing::demo;
