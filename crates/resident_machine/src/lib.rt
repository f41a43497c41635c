//! The resident machine: an 8086 in which all code is present, each segment a list of bytes of its own, and the laws
//! that tie it to the machine with one memory.
#![tactic(auto)]

mod laws;
pub mod machine_lines;

pub use laws::{astray_law, example_law, resident_law, run_law, start_law, whole_law};
