//! Typed stores.
#![tactic(auto)]

pub mod classes;
pub mod operators;
pub mod standard;
pub mod stores;
pub mod types;
pub mod units;
