//! The checker of sources: from a tree and a scope to a typed unit, or the rule that fails and where.
#![tactic(auto)]

mod checking;
mod endings;
mod fronts;
mod interfaces;
mod items;
mod limits;
mod programs;
pub mod routines;
mod shown;

pub use checking::{check, unit_laws};
pub use limits::OWN_LIMIT;
pub use shown::check_interface;
