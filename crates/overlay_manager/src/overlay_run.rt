//! The run of a program whose overlays are managed, and what holds of it.

mod laws;

pub use laws::plain_law;
