//! How lock types stand to one another: for each two, whether one was adopted before the other, is
//! before it by adopted orders, or was found with it in violation.
#![tactic(auto)]

mod matrix;
mod squares;

pub use matrix::Matrix;
