//! Expressions of the grammar as operators and operands.

mod designators;
mod operators;
mod places;

pub use designators::{designator_in, sole_designator};
pub use operators::{begins, of_adder, of_multiplier, of_relator, of_sign};
pub use places::first_place;
