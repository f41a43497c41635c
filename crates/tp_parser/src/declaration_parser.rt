//! Declarations of Turbo Pascal, read from lexemes.

mod item;
mod list;
mod lookahead;
mod node;
mod part;
mod read;
mod routine;

pub use lookahead::{DeclarationStart, PartStart, begins_declaration, declaration_start};
pub use part::read_part;
pub use read::{read_block, read_declarations};
