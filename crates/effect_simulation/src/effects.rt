//! The code of arguments, of effects of the machine, and of stored routines does what they mean.

mod laws;

pub use laws::{act_law, argument_law, routine_law};
