//! Units of a program agree on their types, where each tells of them what interfaces tell.

mod laws;

pub use interfaces_consistent::interface_soundness::programs::program_laws;
pub use laws::consistent_program_laws;
