//! A certificate that a set of orders has no circle: a sequence of types, and pairs of them, each of
//! which goes forward in the sequence. It is checked line by line.
#![tactic(auto)]

mod answers;
mod checking;
pub mod laws;
mod reading;
pub mod sequence;
mod status;

pub use answers::{Answer, Flaw};
pub use checking::check_sequence;
pub use reading::{OrderLine, order_line};
pub use status::{ACYCLIC, BACKWARD, BAD_LINE, FAILED, status_of};
