//! Object units as bytes of a unit file: read from the front of what is left, and written.
#![tactic(auto)]

pub mod file_parts;
mod laws;
pub mod object_unit;
mod reading;
mod writing;

pub use laws::one_spelling;
pub use reading::object_of;
pub use writing::push_object;
