//! What the answers of `wit_condensed` are for: a recorder that writes by them keeps its duty.
#![tactic(auto)]

pub mod laws;
