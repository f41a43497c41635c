//! Routines that a block declares are well formed.

mod laws;

pub use laws::checked_routine_law;
