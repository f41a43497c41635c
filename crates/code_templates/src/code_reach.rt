//! The short jumps of a routine's code reach their labels.

mod laws;

pub use laws::reach_law;
