//! The laws on types that names, headers and constants have.

mod laws;

pub use laws::bound_laws;
