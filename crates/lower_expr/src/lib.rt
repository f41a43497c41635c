//! From typed expressions, places, arguments and calls to flat code.
#![tactic(auto)]

mod calls;
mod expressions;
mod standard;

pub use calls::{call_destructor, made_block};
pub use expressions::{lower_address, lower_args, lower_expr, lower_place};
