//! The bytes that values take on the evaluation stack.

ghost use Rattle.std.specs.Prelude.{◌≡◌, ◌≤◌, Option, Some, slice_get};
ghost use Rattle.typed_tree.specs.Expressions.{view_expr, view_place};
ghost use Rattle.typed_tree.specs.Slots.{slot_of_definition, slot_of_type, slot_of_result, slot_of_constant, slot_of, is_var};

use crate::{Expr, PlaceExpr, Value};
use type_layout::{TypeDef, TypeId, Types, storage_of};

fn slot_of_definition(one: &TypeDef) -> u64
    ensures value { result ≡ slot_of_definition (Some one.now) }
    ensures bound { result ≤ 256 }
{
    match one {
        TypeDef::Ordinal { host, low, high } => {
            if storage_of(*host, *low, *high).width() <= 2 {
                2
            } else {
                4
            }
        }
        TypeDef::Str { .. } => 256,
        TypeDef::SetOf { .. } => 32,
        _ => 4,
    }
}

/// The slot of a value of this type, 0 where the table does not have it.
pub fn slot_of_type(types: &Types, id: TypeId) -> u64
    ensures value { result ≡ slot_of_type types.now.types id }
    ensures bound { result ≤ 256 }
{
    if id.0 < types.count() {
        slot_of_definition(types.get(id))
    } else {
        0
    }
}

/// The slot of a call's result, 0 for a procedure.
pub fn slot_of_result(types: &Types, ty: Option<TypeId>) -> u64
    ensures value { result ≡ slot_of_result types.now.types ty }
    ensures bound { result ≤ 256 }
{
    match ty {
        None => 0,
        Some(id) => slot_of_type(types, id),
    }
}

/// The slot of a constant: a string constant has that of a pointer.
pub fn slot_of_constant(types: &Types, ty: TypeId, value: &Value) -> u64
    ensures value { result ≡ slot_of_constant types.now.types ty value.now }
    ensures bound { result ≤ 256 }
{
    match value {
        Value::Chars(_) => 4,
        Value::Number(_) | Value::Nil | Value::Elements(_) => slot_of_type(types, ty),
    }
}

/// The slot of an expression's value.
pub fn slot_of(types: &Types, expr: &Expr) -> u64
    ensures value { result ≡ slot_of types.now.types (view_expr expr.now) }
    ensures bound { result ≤ 256 }
{
    match expr {
        Expr::Const { ty, value } => slot_of_constant(types, *ty, value),
        Expr::RoutineValue { .. } => 4,
        Expr::Load { ty, .. }
        | Expr::Unary { ty, .. }
        | Expr::Binary { ty, .. }
        | Expr::Convert { ty, .. }
        | Expr::Range { ty, .. }
        | Expr::SetOf { ty, .. }
        | Expr::Make { ty, .. } => slot_of_type(types, *ty),
        Expr::Call { ty, .. }
        | Expr::CallVirtual { ty, .. }
        | Expr::CallThrough { ty, .. }
        | Expr::Std { ty, .. } => slot_of_result(types, *ty),
    }
}

/// Whether a place is a variable itself.
pub fn is_var(place: &PlaceExpr) -> bool
    ensures { result ≡ is_var (view_place place.now) }
{
    matches!(place, PlaceExpr::Var(_))
}
