//! Documents of what a recording shows: the JSON report of `record --json` is read, and written anew in
//! forms that people and other programs read.
#![tactic(auto)]

mod document;
mod flows;
mod hangs;
mod items;
mod kinds;
mod lines;
mod locations;
mod log;
mod members;
mod outline;
pub mod places;
mod plain;
pub mod reading;
mod results;
mod sarif;
mod stacks;
mod uris;

pub use document::{DocumentError, report_of, write_sarif};
pub use items::Items;
pub use kinds::{KINDS, Kind, is_confirmed, kind_of};
pub use lines::{Line, LineKind, lines_of};
pub use outline::Outline;
pub use plain::put_plain;
pub use uris::put_uri;
