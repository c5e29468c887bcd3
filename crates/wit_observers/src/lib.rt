//! The adopted orders, shown to observers that look at them without waiting: who adopts publishes
//! each order, and an observer answers from a copy that nobody changes while it looks.
#![tactic(auto)]

mod cells;
mod news;
mod observer;
mod publisher;
mod rule;
mod store;
mod tail;

pub use news::News;
pub use observer::Observer;
pub use publisher::Publisher;
