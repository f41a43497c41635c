//! Typed trees, and the memory and code that they ask for.
#![tactic(auto)]

mod expressions;
mod frames;
mod needs;
mod slots;
pub mod standard;
mod statement_needs;
mod statement_weights;
mod statements;
pub mod type_fits;
mod units;
mod weights;

pub use expressions::{Arg, BinaryOp, Expr, PlaceExpr, SetElement, UnaryOp, Value, Variable};
pub use frames::{frame_of, need_of, own_bytes, weight_of};
pub use slots::{is_var, slot_of, slot_of_constant, slot_of_result, slot_of_type};
pub use statements::{Arm, Destructor, LabelRange, ReadItem, Stmt, WriteItem};
pub use units::{Global, Globals, Item, Items, Locals, Program, Routine, Routines, Unit, Units};
