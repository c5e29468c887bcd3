//! The texts of reports and of views.
#![tactic(auto)]

mod assertions;
mod circles;
mod duplicate;
mod graphs;
mod held;
mod locks;
mod orders;
mod pieces;
mod reports;
mod reversal;
mod type_lists;
mod warnings;

pub use assertions::assert_text;
pub use circles::circle_text;
pub use graphs::graph;
pub use held::{all_locks, locks_of, newest_first};
pub use orders::{put_origin, type_words};
pub use pieces::{put_number, put_site};
pub use reports::report_text;
pub use type_lists::type_list;
pub use warnings::{warn_text, warned_text};
