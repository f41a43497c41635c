//! Constants, types, variables, headers.
#![tactic(auto)]

pub mod declarations;
pub mod headers;
pub mod type_denoters;
pub mod type_parts;
