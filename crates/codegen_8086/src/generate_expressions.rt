//! The 8086 code of flat expressions, beside what it refers to.

mod expressions;
mod operands;
mod operators;
mod sink;

pub use expressions::{byte_load, push_args, push_expr};
pub use operands::{address_load, frame_memory, low_word, operand, push_loads, word_load};
pub use operators::{apply, move_word, push_fail};
pub use sink::{at_place, marked, push_bare, push_plain};
