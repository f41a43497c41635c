//! The code of each node, as definitions.
#![tactic(auto)]

pub mod code_labels;
pub mod code_lines;
pub mod code_reach;
pub mod code_references;
