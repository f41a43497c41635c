//! The lines of 8086 code of each node of flat code.

mod laws;

pub use laws::{example_law, weight_law};
