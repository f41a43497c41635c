//! The code of Copy moves bytes one by one, as flat code does.

mod laws;

pub use laws::copy_law;
