//! The back end: from a typed program to its executable and its overlay file.
#![tactic(auto)]

mod building;
mod error;
mod files;
mod object_units;
mod setting;

pub use building::{build, built_files};
pub use error::BuildError;
pub use files::{ProgramFiles, program_files};
pub use smart_linker::Linked;
