//! Routines as values, New and Dispose give well-formed nodes.

mod laws;

pub use laws::allocation_node_laws;
