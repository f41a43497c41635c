//! The DOS-like runner: a process runs on the 8086, and its DOS calls reach the outside.
#![tactic(auto)]

mod event;
pub mod opened_program;
pub mod overlay_runner;
pub mod plain_opening;
mod runner;
mod transfer;

pub use cpu_8086;
pub use event::finish_step;
pub use mz_file;
pub use runner::{RunEnd, run};
pub use tp_outside;
