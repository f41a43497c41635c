//! The interface of a unit is that of its interface part.
#![tactic(auto)]

pub mod interfaces;
pub mod programs;
pub mod tables;
