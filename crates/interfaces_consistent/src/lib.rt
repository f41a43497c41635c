//! Interfaces of one program fit; one folder, one program.
#![tactic(auto)]

pub mod determinism;
pub mod interfaces;

pub use interface_soundness;
