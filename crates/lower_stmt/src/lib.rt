//! Statements, routines, units and whole programs as flat code.
#![tactic(auto)]

mod branches;
mod copies;
mod counters;
mod heap;
mod items;
mod literals;
mod loops;
mod procedures;
mod programs;
mod prologues;
mod statements;
mod tables;
mod unit_data;
mod units;
mod words;

pub use programs::flat_units;
pub use statements::lower_stmt;
pub use units::flat_unit;
