//! Sources that are spelled alike are typed alike, wherever their trees lie in memory.

mod laws;

pub use laws::spelled_trees_laws;
