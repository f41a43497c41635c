//! The laws on types that declarations name.

mod laws;

pub use laws::closing_laws;
