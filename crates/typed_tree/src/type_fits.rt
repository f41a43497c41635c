//! When a value of one type is a value of another, and what operators and standard routines take and give.

mod laws;

pub use laws::fit_laws;
