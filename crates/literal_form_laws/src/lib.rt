//! Laws on programs of literals that lie in memory in different ways.
#![tactic(auto)]

pub mod congruence;
