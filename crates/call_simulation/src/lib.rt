//! And calls, frames, stubs.
#![tactic(auto)]

pub mod calls;
pub mod frames;
pub mod indirect_calls;
pub mod services;
pub mod steps;
pub mod stubs;
