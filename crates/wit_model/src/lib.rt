//! What a lock order verifier speaks of: its types, and in `specs/` the definitions of its rules.
#![tactic(auto)]

mod assertions;
mod boxes;
mod calls;
pub mod chunks;
mod faults;
mod flags;
pub mod laws;
mod lines;
mod locks;
mod names;
mod new_orders;
mod profiles;
mod raw_steps;
mod sizes;
mod type_lists;

pub use assertions::AssertAnswer;
pub use boxes::Boxed;
pub use calls::{
    Adoption, Call, Conflict, Doubling, Entry, Heading, LockAt, NewLock, Reply, Request,
    TypedRequest,
};
pub use faults::Fault;
pub use flags::{LockAssert, LockFlags, OpFlags, WarnFlags};
pub use lines::{Cause, Keyword, Line, LockLine, Verb, Version, View};
pub use locks::{
    Class, FileNo, Instance, Lock, LockNo, LockType, Mode, Origin, SeatNo, Site, TypeNo, Watch,
};
pub use names::{FileName, Name};
pub use new_orders::NewOrders;
pub use profiles::Profile;
pub use raw_steps::RawStep;
pub use sizes::Limits;
pub use type_lists::TypeList;
