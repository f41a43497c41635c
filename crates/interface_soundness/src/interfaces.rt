//! The laws on what units show.

mod laws;

pub use laws::agreement_laws;
