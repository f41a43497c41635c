//! The code of statements does what they mean: tests, loops, and lists of statements.

mod laws;

pub use laws::{flow_law, step_law};
