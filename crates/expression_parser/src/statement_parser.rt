//! Statements of Turbo Pascal, read from lexemes.

mod label;
mod list;
mod lookahead;
mod named;
mod node;
mod read;
mod statement;

pub use read::{read_compound, read_statement};
