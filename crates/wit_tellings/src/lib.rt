//! What recordings tell of single locks and of threads: all that is told of two locks is put together,
//! and of those of some types there are the facts of which there is a grade.
#![tactic(auto)]

mod asking;
mod lives;
mod tellers;
mod tellings;

pub use asking::{Asking, Deed};
pub use tellers::{TELLINGS, Teller, since};
pub use tellings::{Making, Tellings};
