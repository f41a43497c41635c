//! The interpreter's store.
#![tactic(auto)]

pub mod cell_store;
pub mod typed_cells;
pub mod value_operators;
