//! The whole input of a program, read to its end.

mod error;
mod input;

pub use error::InputError;
pub use input::{INPUT_LIMIT, whole_input};
