//! First values of typed constants, read from lexemes.

mod initializer;
mod list;
mod lookahead;
mod read;

pub use read::read_initializer;
