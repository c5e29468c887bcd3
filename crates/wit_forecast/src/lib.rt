//! Forecast: for each report of a trace a schedule, which is the trace's own lines in another sequence
//! that ends with seats waiting for one another in a circle; or why there is none.
#![tactic(auto)]

mod answers;
mod blocks;
mod certifying;
mod circles;
mod deeds;
mod errands;
mod forecasting;
mod meeting;
mod outcomes;
mod owners;
mod reaching;
mod reading;
mod requests;
mod rests;
mod schedules;
mod searching;
mod shares;
mod ways;

pub use forecasting::forecast;
