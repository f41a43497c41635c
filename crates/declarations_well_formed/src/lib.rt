//! And declarations.
#![tactic(auto)]

pub mod constants;
pub mod exported_constants;
pub mod names;
pub mod parts;
pub mod tables;
pub mod values;

pub use bodies_well_formed::well_formed;
pub use imported_types_agree;
