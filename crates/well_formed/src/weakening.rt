//! What is well formed in a scope is so in each that has more.

mod laws;

pub use laws::weakening_laws;
