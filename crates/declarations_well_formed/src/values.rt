//! The law on what parts of declarations declare.

mod laws;

pub use laws::declared_value_law;
