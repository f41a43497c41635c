//! Calls through far pointers, of memory and of code.

mod laws;

pub use laws::{far_law, through_law};
