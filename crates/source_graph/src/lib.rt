//! The sources of a program: from a folder of files and a name to the trees of the program and of all units that it uses.
#![tactic(auto)]

pub mod determinism;
mod error;
mod files;
mod gathering;
mod lexing;
pub mod source_order;
mod sources;
mod texts;
mod wanted;

pub use error::{At, GatherError, LexCause};
pub use files::source_file;
pub use gathering::{Gathered, gather, whole};
pub use sources::Source;
pub use syntax_tree;
pub use texts::{ALL_TEXTS_LIMIT, TEXT_LIMIT, at};
pub use type_layout;
