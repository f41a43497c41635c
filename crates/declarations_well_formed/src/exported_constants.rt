//! The law on constants that units show.

mod laws;

pub use laws::shown_constant_law;
