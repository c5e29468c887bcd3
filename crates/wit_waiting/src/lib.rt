//! The seats: what each holds and has asked for, and the search for a circle of seats that wait for
//! one another.
#![tactic(auto)]

mod circle;
mod seats;

pub use circle::circle_in;
pub use seats::{Chunked, Seats};
