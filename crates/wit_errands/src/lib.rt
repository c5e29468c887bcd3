//! Errands: what a thread does between a moment in which it had no lock and a request. They say where
//! a reversal of a run can hang.
#![tactic(auto)]

pub mod laws;
