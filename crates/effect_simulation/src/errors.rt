//! The routine to which runtime errors come: its code and what it does.

mod laws;

pub use laws::error_law;
