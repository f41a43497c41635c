//! The laws on well-formed units of programs.

mod laws;

pub use laws::formed_program_laws;
