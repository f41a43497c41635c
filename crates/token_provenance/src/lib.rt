//! What the lexer gives is in the leaves of trees.
#![tactic(auto)]

pub mod leaves;
pub mod sources;
