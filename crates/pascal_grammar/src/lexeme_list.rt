//! The lexemes of a list of tokens: the directives are taken out, and each lexeme has the switches that hold there.

mod phase;
mod terminal;
mod word;

pub use terminal::lexemes_of;
