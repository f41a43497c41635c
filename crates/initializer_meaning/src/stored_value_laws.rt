//! What is written for a variable is what the meaning reads.

mod laws;

pub use laws::stored_value_laws;
