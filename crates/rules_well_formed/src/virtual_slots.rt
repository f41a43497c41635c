//! A method that is found by its name and is virtual has a slot.

mod laws;

pub use laws::virtual_slot_law;
