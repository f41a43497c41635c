//! Statements of the grammar over operators and operands, and where their parts stand.

mod places;

pub use places::{place_of, place_of_designator, place_of_simple};
