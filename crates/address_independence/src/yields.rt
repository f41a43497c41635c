//! What the grammar makes of a source, read back: it fixes all that the rules of typing look at.

mod laws;

pub use laws::read_back_laws;
