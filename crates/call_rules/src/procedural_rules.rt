//! Routines as values of procedural types, and calls through variables that hold them.

mod laws;
mod through;
mod values;

pub use laws::procedural_laws;
pub use through::{HeldRoutine, called_through, held_routine, performed_through, settled};
pub use values::routine_value;
