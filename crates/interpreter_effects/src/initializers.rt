//! The trees of variables that begin with bytes, as typed constants do.

mod cells;
mod readers;

pub use readers::first_tree;
