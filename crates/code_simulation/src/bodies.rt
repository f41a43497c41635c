//! The induction over calls: the code of a placed program does what the flat program means.

mod laws;

pub use laws::body_law;
