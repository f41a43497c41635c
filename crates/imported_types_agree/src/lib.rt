//! Tables tell of types what their units tell.
#![tactic(auto)]

pub mod compatible_types;
pub mod consistent_types;
pub mod well_scoped;

pub use tables_closed;
