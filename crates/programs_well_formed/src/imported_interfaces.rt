//! The laws on what used units bring into a scope.

mod laws;

pub use laws::{further_use_law, interface_law, own_use_law};
pub use units_well_formed::declarations_well_formed::exported_constants::shown_constant_law;
pub use units_well_formed::units::{checked_unit_laws, part_keeping_law};
