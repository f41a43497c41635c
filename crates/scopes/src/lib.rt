//! What names mean at a place of a source.
#![tactic(auto)]

mod copies;
mod entries;
mod members;
mod predeclared;
mod scope;
mod searches;
mod symbols;

pub use entries::{BlockKind, Entry, Found};
pub use members::{Member, member_of};
pub use predeclared::{
    BOOLEAN, BYTE, CHAR, INTEGER, LONG_INT, SET_OF_BOOLEAN, SET_OF_BYTE, SET_OF_CHAR, SHORT_INT,
    STRING, WORD,
};
pub use scope::Scope;
pub use symbols::Symbols;
