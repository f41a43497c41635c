//! Conversions and calls give typed nodes.

mod laws;

pub use laws::call_laws;
