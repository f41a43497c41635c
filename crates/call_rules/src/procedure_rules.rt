//! The standard procedures: what they ask of their arguments, and the nodes of their calls.

mod calls;
mod laws;
mod rows;

pub use calls::{standard_performed, told};
pub use laws::procedure_laws;
pub use rows::{Slot, Slots};
