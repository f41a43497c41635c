//! What is known where some blocks are open is there among trees.

mod laws;

pub use laws::known_name_laws;
