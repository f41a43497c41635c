//! The meaning reads the initializers of typed constants as the sources say them.

mod laws;

pub use laws::first_tree_laws;
