//! Type tables have each type that is named.
#![tactic(auto)]

pub mod constants;
pub mod routines;
pub mod types;
