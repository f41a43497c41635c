//! Calls do what they mean, if the bodies of the called routines do.

mod laws;

pub use laws::{callable_law, routine_law, step_law};
