//! Grades of facts, line by line: facts are read, and each time that it is asked for, a line says
//! whether threads can wait for one another so.
#![tactic(auto)]

mod answers;
mod fields;
mod grading;
pub mod laws;
mod reading;

pub use grading::grade_facts;
pub use reading::{GradeLine, Keyword, grade_line};
