//! Expressions of Turbo Pascal, read from lexemes.
#![tactic(auto)]

mod error;
mod expressions;
mod factor;
mod lexemes;
mod list;
mod lookahead;
mod node;
mod read;
mod selector;
pub mod statement_parser;

pub use error::ReadError;
pub use lexemes::{identifier, letter, mark, number, skip, text};
pub use lookahead::{begins, tail};
pub use read::{read_arguments, read_designator, read_expression, read_simple};
