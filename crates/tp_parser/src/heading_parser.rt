//! Uses clauses, headings of programs and headers of routines, read from lexemes.

mod header;
mod heading;
mod lookahead;
mod read;
mod uses;

pub use read::{read_header, read_heading, read_uses};
