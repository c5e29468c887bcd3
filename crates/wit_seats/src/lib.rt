//! The seats of a verifier that threads share: what ties its log to the tokens of the seats that
//! logged into it.
#![tactic(auto)]

mod keeper;
mod room;
mod rule;
mod seat;
mod views;

pub use keeper::{LogKeeper, OpenedLog};
pub use room::{Room, VerifierStep};
pub use seat::{Seat, abandon_all};
pub use views::{Journal, SeatKnowledge};
