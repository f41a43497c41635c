//! Typed programs.
#![tactic(auto)]

pub mod calls;
pub mod lvalues;
pub mod programs;

pub use store_typing;
pub use well_formed::{type_layout, typed_tree};
