//! The calls. Each that is logged has its answer before it changes anything. A change that wants
//! memory changes nothing where it gets none, and comes before those that can't fail; the log's
//! entry comes last.

mod assert_lock;
mod attempt;
mod call;
mod check;
mod define_order;
mod destroy;
mod give_up;
mod init;
mod mark;
mod note;
mod note_try;
mod prepare;
mod set_watch;
mod turn;
mod unlock;
mod warn;

pub use attempt::Attempt;
