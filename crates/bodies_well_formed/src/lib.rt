//! And bodies.
#![tactic(auto)]

pub mod expressions;
pub mod other_units;
pub mod statements;

pub use rules_well_formed::well_formed;
