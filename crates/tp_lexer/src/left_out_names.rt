//! Names of the full language that this profile leaves out.

mod names;

pub use names::feature_of;
