//! Programs of literals among the typed programs: those that only write constants and halt.
#![tactic(auto)]

mod executable;
mod items;
mod law;
pub mod literal_code;
mod main_part;
mod reading;

pub use executable::literal_executable;
pub use items::{is_halt, is_text};
pub use law::literal_program_law;
pub use typed_tree;
