//! Its code does what expressions and statements mean.
#![tactic(auto)]

pub mod expressions;
pub mod flow;
pub mod stores;
