//! One folder is read in one way.

mod laws;

pub use laws::reading_laws;
