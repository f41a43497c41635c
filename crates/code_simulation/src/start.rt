//! The start of a program, and what a placed program shows.

mod laws;

pub use laws::start_law;
