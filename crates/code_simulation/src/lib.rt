//! And whole programs.
#![tactic(auto)]

pub mod bodies;
pub mod start;
