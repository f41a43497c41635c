//! What the units of a program suppose of one another is so.

mod laws;

pub use laws::satisfied_supposition_laws;
pub use programs_well_formed::programs::formed_program_laws;
pub use shared_types_agree::methods::{consistent_program_laws, lawful_method_laws};
