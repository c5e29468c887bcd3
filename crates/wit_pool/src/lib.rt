//! Lists of held locks in chunks that lie in one block and are linked to one another.
#![tactic(auto)]

mod cells;
mod chain;
mod chunk;
mod group;
mod pool;

#[doc(hidden)]
pub use cells::{Cells, Deed, Link};
#[doc(hidden)]
pub use chain::Chain;
#[doc(hidden)]
pub use chunk::{Chunk, Next};
#[doc(hidden)]
pub use group::Group;
pub use pool::Pool;
