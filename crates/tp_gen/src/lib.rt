//! Sources of overlaid programs, which are drawn from a seed.
#![tactic(auto)]

mod draws;
mod laws;
mod program;
mod sources;
mod units;

pub use laws::{generated_program_laws, worked_draws};
pub use program::DrawnCall;
pub use sources::{Texts, generate};
pub use units::DrawnUnit;
