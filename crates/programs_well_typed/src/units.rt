//! Checked units keep what a well-typed program asks of first values and of routines.

mod laws;

pub use laws::sound_unit_laws;
