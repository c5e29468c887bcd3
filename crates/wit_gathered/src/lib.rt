//! What lines of ftrace told, gathered: the requests whose pairs of types are new, with what was held. A
//! type is known at the end alone: later lines may tell that it has readers, or that two are one.
#![tactic(auto)]

mod gathering;
mod holds;
pub mod laws;
mod names;
mod naming;
mod requests;
mod statics;
mod types;

pub use gathering::{Counts, Gathering, Settings};
pub use naming::{LockClass, Named, Naming};
pub use requests::{Kept, Request, Step};
pub use types::Type;
