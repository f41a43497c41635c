//! The law on the values that constant expressions have.

mod laws;

pub use laws::constant_value_law;
