//! The one program that the files of a folder hold.

mod laws;

pub use laws::one_program_laws;
