//! And units.
#![tactic(auto)]

pub mod parts;
pub mod routines;
pub mod units;

pub use declarations_well_formed;
pub use declarations_well_formed::imported_types_agree;
