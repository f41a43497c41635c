//! The acts of a program of literals, their 8086 code, and its executable.

mod act;
mod code;
mod image;
mod program;

pub use act::Act;
pub use image::{Memory, executable};
pub use program::LiteralProgram;
