//! The interpreter of typed programs.
#![tactic(auto)]

mod calls;
mod entering;
mod evaluation;
mod execution;
mod loops;
mod machine;
mod operands;
mod program;
mod resumption;

pub use program::{MeanEnd, Meaning, mean};
pub use type_layout;
pub use typed_tree;
