//! Typed programs that are the same, as programs of literals.

mod laws;

pub use laws::same_literal_laws;
