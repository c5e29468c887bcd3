//! A verifier that threads share: one lock around it, a token for each seat, and observers of its
//! adopted orders, who wait for nobody.
#![tactic(auto)]

mod closing;
mod desk;
mod following;
mod law;
mod looking;
mod observing;
mod opening;
mod program;
mod publishing;
mod shared;

pub use closing::Unclosed;
pub use law::law_closed_logs_add_up;
pub use looking::Look;
pub use opening::{MOST_OBSERVERS, OpenedVerifier, Reason, Unopened};
pub use program::{Program, Refused, share};
pub use shared::Shared;
pub use wit_observers::{News, Observer};
pub use wit_seats::{Room, Seat, SeatKnowledge, abandon_all};
