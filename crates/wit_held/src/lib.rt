//! What acquisitions, releases, turns and marks make of the list of locks that a seat holds, over any lists.
#![tactic(auto)]

mod assertions;
mod chains;
mod marks;
mod releases;
mod spots;
mod warnings;

pub use assertions::{assert_is, asserted};
pub use chains::{held, oldest_held, record, record_new, set_mode};
pub use marks::{norelease, releaseok};
pub use releases::{forget, release};
pub use warnings::{LockTypes, is_allowed, is_named, warn_count};
