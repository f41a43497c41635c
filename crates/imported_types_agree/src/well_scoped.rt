//! The laws on closed scopes of units that use others.

mod laws;

pub use laws::scope_laws;
