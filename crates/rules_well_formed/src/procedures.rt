//! Calls of standard procedures give typed nodes.

mod laws;

pub use laws::procedure_node_laws;
