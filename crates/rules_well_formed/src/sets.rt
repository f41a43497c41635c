//! Set constructors give typed nodes.

mod laws;

pub use laws::set_node_law;
