//! The laws on types of used units that fit those of a scope.

mod laws;

pub use laws::fitting_laws;
