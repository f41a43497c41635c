//! And copies, effects, errors.
#![tactic(auto)]

pub mod copies;
pub mod effects;
pub mod errors;
