//! What is made of the lines of a trace: its prelude, the call that a line makes, and what calls
//! tell.
#![tactic(auto)]

mod calls;
mod frequent_lines;
mod line_calls;
mod line_reader;
mod prelude;
mod view;

pub use calls::{assertion, number_of, remark, text_of_reply, warning};
pub use frequent_lines::{read_line, read_step_line};
pub use line_calls::{LineCall, call_of, file_of, file_on_lock, lock_call};
pub use line_reader::LineReader;
pub use prelude::{Prelude, add_line, is_prelude, new_prelude, verifier_of};
pub use view::View;
