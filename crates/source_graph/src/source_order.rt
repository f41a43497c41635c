//! The order in which the sources of a program are initialised.

mod order;

pub use order::{all_in_order, source_order};
