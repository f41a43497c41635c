//! Law: the meaning reads the bytes of initializers.
#![tactic(auto)]

pub mod initializer_trees;
pub mod stored_value_laws;
