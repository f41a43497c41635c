//! Constants, types and variables that a block declares.

mod constants;
mod homes;
mod laws;
mod parts;
mod variables;

pub use homes::Home;
pub use laws::declaration_laws;
pub use parts::part_declared;
