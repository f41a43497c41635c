//! The object unit of a flat unit: its 8086 code and data, and what they refer to.
#![tactic(auto)]

mod error;
pub mod generate_code;
pub mod generate_expressions;
pub mod generate_routines;
pub mod generate_steps;
mod layout;
pub mod object_code;
mod object_data;
pub mod object_sizes;
mod references;
mod units;

pub use error::GenError;
pub use units::{generate, has_short_arguments};
