//! The tokens of Turbo Pascal 5.5, after includes and conditions.
#![tactic(auto)]

mod act;
mod characters;
mod comment;
mod condition;
mod constant;
mod directive;
mod file_name;
pub mod left_out_names;
mod lexer;
mod meaning;
mod number;
mod numbers;
mod piece;
mod place;
mod prefix;
mod reader;
mod shape;
pub mod source_directives;
mod state;
mod symbol;
mod token;
mod value;
mod word;

pub use lexer::{one_list, tokens};
pub use symbol::Symbol;
pub use token::{Feature, LexError, Switches, Text, Token, TokenKind, TokenList};
pub use word::reserved_place;
