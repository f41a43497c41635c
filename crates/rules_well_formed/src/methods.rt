//! Calls of methods and through variables give typed nodes.

mod laws;

pub use laws::method_node_laws;
