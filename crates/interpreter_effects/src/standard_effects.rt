//! The standard routines, on values and on the store.

mod arguments;
mod changes;
mod functions;
mod heap;
mod routines;

pub use arguments::{Operand, handed};
pub use changes::{number_assigned, stored_as};
pub use heap::{instance_size, make, size_freed, target};
pub use routines::{Standard, perform, standard_of};
