//! The 8086 as a machine that executes one instruction at a time, and what a process under DOS does with it.
#![tactic(auto)]

mod arithmetic;
mod compute;
mod decoded;
mod execute;
mod hardware;
mod laws;
mod machine;
mod memory;
mod operand;
mod process;
mod registers;
mod step;
mod transfer;

pub use laws::{arithmetic_law, compare_law, memory_law, run_law, stack_law, step_law};
pub use machine::{Event, Machine};
pub use process::Why;
pub use registers::{Far, Flag, Reg, Registers};
