//! The code of stores does what they mean.

mod laws;

pub use laws::store_law;
