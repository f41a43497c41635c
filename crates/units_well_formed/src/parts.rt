//! Parts of declarations keep what is known.

mod laws;

pub use laws::part_keeping_law;
