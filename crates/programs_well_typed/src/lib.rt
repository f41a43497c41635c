//! Every program of the front end is well typed.
#![tactic(auto)]

pub mod programs;
pub mod suppositions;
pub mod units;
