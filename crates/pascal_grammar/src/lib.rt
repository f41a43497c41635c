//! The lexemes of Turbo Pascal, and its grammar as data.
#![tactic(auto)]

pub mod lexeme_list;

ghost use Rattle.pascal_grammar.specs.Laws.{IsPredicted, IsInhabited, IsUnambiguous};

mod kind;
mod lexeme;
mod omission;
mod operator;

pub use kind::Kind;
pub use lexeme::{Lexeme, NameClass, Position, Terminal, front_kind};
pub use omission::Omission;
pub use operator::{Adder, Direction, Multiplier, Relator, Sign};

/// The laws of the grammar; it does nothing.
pub fn grammar_laws()
    // One lexeme ahead decides between the productions of a part.
    ensures predicted { IsPredicted }
    // Each part has a tree.
    ensures inhabited { IsInhabited }
    // Lexemes spell one tree at most.
    ensures unambiguous { IsUnambiguous }
{}
