//! Operators on sets.

ghost use Rattle.tp_meaning.specs.Operators.{on_sets};
ghost use Rattle.interpreter_store.specs.cell_store.Views.{view_value};
ghost use Rattle.interpreter_store.specs.cell_store.Finding.{Gets};

use crate::cell_store::{Stop, Trap, Value};
use crate::value_operators::numbers::truth;
use common_values::sets::{difference, intersection, is_same, is_subset, union};
use std::alloc::Global;
use type_layout::Bytes;
use typed_tree::BinaryOp;

/// An operator on two sets.
pub(crate) fn on_sets(alloc: Global, op: BinaryOp, a: &[u8], b: &[u8]) -> Result<Value, Stop>
    ensures { Gets view_value result (on_sets op a.now b.now) }
{
    match op {
        BinaryOp::Add => Ok(Value::Elements(Bytes::from_vec(union(alloc, a, b)?))),
        BinaryOp::Subtract => Ok(Value::Elements(Bytes::from_vec(difference(alloc, a, b)?))),
        BinaryOp::Multiply => Ok(Value::Elements(Bytes::from_vec(intersection(alloc, a, b)?))),
        BinaryOp::Equal => Ok(truth(is_same(a, b))),
        BinaryOp::NotEqual => Ok(truth(!is_same(a, b))),
        BinaryOp::LessOrEqual => Ok(truth(is_subset(a, b))),
        BinaryOp::GreaterOrEqual => Ok(truth(is_subset(b, a))),
        BinaryOp::Divide
        | BinaryOp::Modulo
        | BinaryOp::ShiftLeft
        | BinaryOp::ShiftRight
        | BinaryOp::And
        | BinaryOp::Or
        | BinaryOp::Xor
        | BinaryOp::Less
        | BinaryOp::Greater
        | BinaryOp::In => Err(Stop::Trapped(Trap::IllTyped)),
    }
}
