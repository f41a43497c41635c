//! The labels of a routine's code stand once.

mod laws;

pub use laws::label_law;
