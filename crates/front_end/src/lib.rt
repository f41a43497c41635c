//! The front end: from the files of a program to the typed program, or the first refusal.
#![tactic(auto)]

pub mod outcomes;
mod program;
pub mod refusals;
pub mod source_interfaces;
mod units;

pub use program::{TypedSources, typed_program, typed_sources};
