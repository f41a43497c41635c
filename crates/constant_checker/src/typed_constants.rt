//! First values of typed constants, as the bytes that their variables begin with.

mod bounds;
mod check;
mod fields;
mod fitting;
mod initial;
mod plain;
mod written;

pub use check::{check_initializer, initializer_laws};
pub use initial::first_value;
