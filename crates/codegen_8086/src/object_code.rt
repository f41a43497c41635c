//! What the code and data of an object unit are, and that code is what it is made for.

mod laws;

pub use laws::{code_law, reference_law};
