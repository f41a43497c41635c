//! Calls of standard functions give typed nodes.

mod laws;

pub use laws::standard_node_laws;
