//! The rules on conversions and on calls of routines, and the nodes that they are given.
#![tactic(auto)]

pub mod allocation_rules;
mod arguments;
mod casts;
mod laws;
pub mod method_rules;
pub mod procedural_rules;
pub mod procedure_rules;
pub mod set_rules;
pub mod standard_rules;

pub use arguments::{called, given, performed};
pub use casts::{cast, is_ordinal};
pub use laws::call_laws;
pub use object_vmt;
