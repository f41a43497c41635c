//! The words of the command line of `tp`, read by `clap`.
#![tactic(auto)]

mod command;
mod line;
mod rows;
mod said;

pub use command::{Command, RunOptions};
pub use line::command_of;
pub use rows::worked_lines;
