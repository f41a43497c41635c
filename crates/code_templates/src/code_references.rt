//! Lines of routines before any address is known, beside what they refer to.

mod laws;
mod marks;

pub use laws::{filled_law, placed_law};
pub use marks::{MarkedLine, MarkedLines, Target};
