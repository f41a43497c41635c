//! The checker of expressions: from a tree and a scope to a typed node, or the rule that fails and where.
#![tactic(auto)]

mod calls;
mod check;
mod constants;
mod expressions;
mod members;
mod names;
mod operations;
mod owners;

pub use calls::{CallTarget, params_of};
pub use check::{check_expr, expression_laws, judged_expression};
pub use expressions::{callable, designator_as, expression_as, made_by, operands};
pub use names::{Purpose, purpose_for, variable};
