//! A scope that tables declare, trees from texts, and typed nodes and mistakes in short, for the tests of the checkers.
#![tactic(auto)]

mod declared;
mod errors;
mod expressions;
mod line;
mod tables;
mod texts;

pub use declared::{Known, Shape, add_types, declare};
pub use errors::put_error;
pub use expressions::{
    show_args, show_expr, show_place, show_routine, show_slot, show_type, show_value, show_variable,
};
pub use line::{
    Line, empty_line, part, put, put_bytes, put_count, put_number, put_numbered, put_place,
};
pub use tables::sample;
pub use texts::{constant, expression, lexemes};
