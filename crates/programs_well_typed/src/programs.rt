//! Every program that sources give is well-typed.

mod laws;

pub use crate::suppositions::formed_program_laws;
pub use laws::well_typed_program_laws;
pub use shared_types_agree::method_numbers::numbered_method_laws;
