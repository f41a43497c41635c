//! Activations begin and end: the first and the last lines of a routine do what a call of flat code means.

mod laws;

pub use laws::{chain_law, entry_law, exit_law};
