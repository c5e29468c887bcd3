//! The grammar of a trace: a line read from its bytes, and printed as them.
#![tactic(auto)]

mod beginnings;
mod keywords;
mod lock_lines;
mod parse;
mod plain_lines;
mod print;
mod print_lock_lines;
mod put;
mod short_lines;
mod spellable;

pub use beginnings::{
    Begun, begin_line, behind_check, behind_free, behind_lock, behind_take, behind_unlock,
    finish_line, lock_line,
};
pub use lock_lines::borrowed;
pub use parse::{LONGEST, parse_line};
pub use print::print_line;
pub use print_lock_lines::put_step;
pub use short_lines::{
    CheckFields, check_fields, free_fields, note_fields, take_fields, unlock_fields,
};
pub use spellable::spelled;
pub use wit_fields::LineError;
