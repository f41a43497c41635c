//! Parts of declarations add names of what they declare.

mod laws;

pub use laws::part_law;
