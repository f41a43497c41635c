//! Methods of the programs that sources give answer as their classes say.

mod laws;

pub use crate::programs::{consistent_program_laws, program_laws};
pub use laws::lawful_method_laws;
