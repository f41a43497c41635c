//! The commands of `tp`: from the words of a command line to what it does.
#![tactic(auto)]

mod compiled;
mod ending;
mod go;
mod mean;
pub mod mean_program;
mod names;
mod perform;
mod run;
mod texts;
mod top;

pub use top::turbo;
