//! The 8086 code of flat routines, beside what it refers to.

mod frames;

pub use frames::push_routine;
