//! The adopted orders as one list, which one adder lengthens and of which any thread may hold a
//! beginning. The list exists in the proofs alone: what runs is its length.
#![tactic(auto)]

mod front;
mod keeper;
mod law;
mod link;
mod naming;
mod page;
mod program;

pub use front::Front;
pub use keeper::{ListKeeper, OpenedList};
#[doc(hidden)]
pub use law::Law;
#[doc(hidden)]
pub use link::ListLink;
pub use naming::Naming;
pub use page::Page;
pub use program::{Program, keep};
