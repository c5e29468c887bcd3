//! What a recording shows, told as its lines come: reports, orders, who waits for whom, whether all is
//! clean, and each bad line.
#![tactic(auto)]

mod errors;
mod finding;
mod grades;
mod objects;
mod processes;
mod recording;
mod reports;
mod spots;
mod states;
mod steps;

pub use finding::findings;
