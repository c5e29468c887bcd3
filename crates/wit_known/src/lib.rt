//! What is known of types, locks and orders, and the static lists that a verifier starts with.
#![tactic(auto)]

mod defining;
mod known;
mod list_faults;
mod locks;
mod names;
mod orders;
mod static_lists;

pub use known::Known;
pub use locks::Locks;
pub use names::{is_enrolled, is_type};
pub use orders::Orders;
pub use static_lists::StartError;
