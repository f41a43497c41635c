//! From the files of a program to its typed program, of which all units are well formed.
#![tactic(auto)]

mod known;
mod numbers;
mod sources;
mod variables;

pub use sources::formed_sources;
