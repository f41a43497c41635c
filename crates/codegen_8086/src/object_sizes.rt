//! How many bytes the code of object units has.

mod laws;

pub use laws::size_law;
