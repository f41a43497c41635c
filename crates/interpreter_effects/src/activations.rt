//! Activations of routines, and their variables.

mod callee;
mod calls;
mod opening;
mod routines;
mod variables;

pub use callee::Callee;
pub use calls::{Activation, Level, callee_of};
