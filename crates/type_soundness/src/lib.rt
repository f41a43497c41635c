//! Steps keep typed stores; no step is stuck.
#![tactic(auto)]

pub mod activations;
pub mod expressions;
pub mod programs;
pub mod starts;
pub mod statements;

pub use program_typing::{store_typing, type_layout, typed_tree};
