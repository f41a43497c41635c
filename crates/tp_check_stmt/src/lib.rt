//! The checker of statements: from a tree and a scope to a typed node, or the rule that fails and where.
#![tactic(auto)]

mod allocations;
mod arguments;
mod asked;
mod assignments;
mod calls;
mod check;
mod labels;
mod loops;
mod nodes;
mod places;
mod standard;
mod statements;

pub use check::{check_stmt, statement_laws};
pub use statements::compound;
