//! Interfaces as bytes of a unit file: read from the front of what is left, and written.

mod items;
mod writing;

pub use items::interface_of;
pub use writing::push_interface;
