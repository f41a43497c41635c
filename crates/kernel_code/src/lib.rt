//! The kernel of a program as an object unit: its start, the error routine, and the routines of two effects of the machine.
#![tactic(auto)]

mod errors;
mod initial;
mod kernel;
mod lines;
mod services;
mod start;

pub use initial::Initial;
pub use kernel::{kernel_name, kernel_unit};
