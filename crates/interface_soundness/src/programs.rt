//! Laws of typed programs.

mod laws;

pub use laws::program_laws;
