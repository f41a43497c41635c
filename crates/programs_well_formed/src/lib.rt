//! And programs.
#![tactic(auto)]

pub mod imported_interfaces;
pub mod programs;
