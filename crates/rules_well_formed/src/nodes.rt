//! Each rule that gives a node gives a well-formed one.

mod laws;

pub use laws::node_laws;
