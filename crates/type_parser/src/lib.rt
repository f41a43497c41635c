//! Types of Turbo Pascal, read from lexemes.
#![tactic(auto)]

pub mod initializer_parser;
mod lexemes;
mod list;
mod lookahead;
mod object;
pub mod parameter_parser;
mod plain;
mod range;
mod read;
mod types;

pub use read::read_type;
