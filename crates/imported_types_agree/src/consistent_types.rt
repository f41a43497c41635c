//! The laws on tables that tell of the types of units what their interfaces tell.

mod laws;

pub use laws::consistency_laws;
