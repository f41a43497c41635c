//! Programs and units of Turbo Pascal, read from tokens.
#![tactic(auto)]

pub mod declaration_parser;
mod error;
pub mod heading_parser;
mod interface;
mod lookahead;
mod source;
mod tree;

pub use error::ParseError;
pub use syntax_tree::source_tree::{Tree, interface_uses, uses_of};
pub use tree::{OPEN_LIMIT, one_fault, one_tree, parse};
