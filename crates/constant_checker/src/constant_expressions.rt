//! Constant expressions of declarations, bounds and labels.

mod check;
mod constants;
mod constructors;
mod expressions;
mod functions;
mod names;
mod operations;
mod sizes;

pub use check::{check_constant, constant_laws};
pub use constants::{Constant, bounds_at, bytes_of, elements_of, number_of};
pub use expressions::constant_of;
