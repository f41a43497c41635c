//! The runner of programs with overlays: a program is opened from its files, and runs on the 8086 with its DOS calls and its
//! overlay traps answered.

mod counts;
mod course;
mod runner;
mod traps;

pub use crate::RunEnd;
pub use crate::opened_program::OpenError;
pub use counts::Counts;
pub use runner::Runner;
