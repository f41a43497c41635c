//! The interfaces of the sources of a program, and what each source knows by those of the units that it uses.

mod interfaces;
mod kinds;
mod known;

pub use interfaces::{interfaces_of, outer_units};
pub use kinds::check_kinds;
pub use known::scope_of;
