//! Activations and standard routines.
#![tactic(auto)]

pub mod activations;
pub mod initializers;
pub mod program_names;
pub mod standard_effects;
