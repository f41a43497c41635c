//! The laws on types that blocks name.

mod laws;

pub use laws::leaving_laws;
