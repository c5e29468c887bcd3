//! Alarms: whether single locks of the types of a report were asked for so that threads can wait for
//! one another in a circle, and what keeps them from it.
#![tactic(auto)]

mod facts;
mod grade;
mod holding;
pub mod laws;
mod lives;
mod pruning;
mod reasons;
mod search;

pub use facts::{Fact, Had, Join, Life, Lives, Manner, Reasons, Single, ThreadNo};
pub use grade::{Cause, Grade, Reason, circle_of, grade_of};
pub use holding::{can_meet, can_wait, has_gate, is_kept_out};
pub use lives::{are_apart, are_two};
pub use reasons::keeps_alone;
