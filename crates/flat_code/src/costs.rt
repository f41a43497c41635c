//! The work that a run of flat code counts is counted apart from all else.

mod laws;

pub use laws::work_law;
