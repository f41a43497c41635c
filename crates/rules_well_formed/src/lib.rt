//! What rules give is well formed.
#![tactic(auto)]

pub mod allocations;
pub mod calls;
pub mod methods;
pub mod nodes;
pub mod procedures;
pub mod sets;
pub mod standard;
pub mod virtual_slots;

pub use well_formed;
