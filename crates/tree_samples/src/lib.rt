//! Types and typed trees from constants, for the tests of what stands on them.
#![tactic(auto)]

mod expressions;
mod names;
mod statements;
mod types;
mod units;

pub use expressions::{
    ArgSample, Callee, ElementSample, ExprSample, PlaceSample, expression, place,
};
pub use names::{list_of_names, named};
pub use statements::{ArmSample, ForSample, ReadSample, StmtSample, WriteSample, statement};
pub use types::{HeaderSample, MethodSample, TypeSample, definition, header, table};
pub use units::{Code, RoutineSample, UnitSample, program, unit};
