//! Lines of code on the resident machine: straight lists of instructions carried through it at once, and jumps to lines.

mod laws;

pub use laws::{divide_law, example_law, jump_law, line_law, run_law, word_law};
