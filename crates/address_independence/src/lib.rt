//! Meanings don't depend on where nodes lie.
#![tactic(auto)]

pub mod congruence;
pub mod spelling;
pub mod yields;
