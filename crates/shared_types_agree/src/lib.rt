//! Units of a program agree on shared types.
#![tactic(auto)]

pub mod method_numbers;
pub mod methods;
pub mod programs;

pub use unit_references;
