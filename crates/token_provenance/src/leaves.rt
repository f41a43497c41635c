//! What the lexer gives is in the trees of sources.

mod laws;

pub use laws::spelled_law;
