//! The operators, by the values that they are given.

ghost use Rattle.std.specs.Prelude.{◌≡◌, Option, true};
ghost use Rattle.type_layout.specs.declared.definitions.Host.{Host as HostOf};
ghost use Rattle.tp_meaning.specs.Store.{Store as PureStore};
ghost use Rattle.typed_tree.specs.declared.expressions.BinaryOp.TheVariants.{And, Or};
ghost use Rattle.tp_meaning.specs.Trees.{Ordinal, Text, Elements};
ghost use Rattle.std.specs.Option.{option_map};
ghost use Rattle.tp_meaning.specs.Operators.{unary, binary, decided};
ghost use Rattle.interpreter_store.specs.cell_store.Views.{view_value, view_store};
ghost use Rattle.interpreter_store.specs.cell_store.Finding.{Finds, Gets};

use crate::cell_store::{Stop, Store, Trap, Value};
use crate::value_operators::numbers::{is_true, truth, unary_number};
use crate::value_operators::relations::{membership, on_ordinals, on_pointers};
use crate::value_operators::sets::on_sets;
use crate::value_operators::texts::on_texts;
use std::alloc::Global;
use type_layout::Host;
use typed_tree::{BinaryOp, UnaryOp};

/// An operator with one operand, whose result is stored so.
pub fn unary(op: UnaryOp, stored: Option<Host>, operand: &Value) -> Result<Value, Trap>
    ensures { Finds view_value result (unary op stored (view_value operand.now)) }
{
    let Some(host) = stored else {
        return Err(Trap::IllTyped);
    };
    let z = operand.number()?;
    Ok(Value::Ordinal(unary_number(op, host, z)))
}

fn of_ordinal(op: BinaryOp, stored: Option<Host>, left: i32, right: &Value) -> Result<Value, Stop>
    ensures { (store : PureStore) → Gets view_value result (binary op stored (Ordinal left) (view_value right.now) store) }
{
    match right {
        Value::Ordinal(right) => Ok(on_ordinals(op, stored, left, *right)?),
        Value::Elements(right) => Ok(membership(op, left, right.as_slice())?),
        _ => Err(Stop::Trapped(Trap::IllTyped)),
    }
}

fn of_text(alloc: Global, op: BinaryOp, left: &[u8], right: &Value) -> Result<Value, Stop>
    ensures { (stored : Option HostOf) (store : PureStore) → Gets view_value result (binary op stored (Text left.now) (view_value right.now) store) }
{
    match right {
        Value::Text(right) => on_texts(alloc, op, left, right.as_slice()),
        _ => Err(Stop::Trapped(Trap::IllTyped)),
    }
}

fn of_set(alloc: Global, op: BinaryOp, left: &[u8], right: &Value) -> Result<Value, Stop>
    ensures { (stored : Option HostOf) (store : PureStore) → Gets view_value result (binary op stored (Elements left.now) (view_value right.now) store) }
{
    match right {
        Value::Elements(right) => on_sets(alloc, op, left, right.as_slice()),
        _ => Err(Stop::Trapped(Trap::IllTyped)),
    }
}

/// An operator with two operands, whose result is stored so. Pointers are compared in the store.
pub fn binary(
    alloc: Global,
    op: BinaryOp,
    stored: Option<Host>,
    left: &Value,
    right: &Value,
    store: &Store,
) -> Result<Value, Stop>
    ensures { Gets view_value result (binary op stored (view_value left.now) (view_value right.now) (view_store store.now)) }
{
    match left {
        Value::Ordinal(left) => of_ordinal(op, stored, *left, right),
        Value::Text(left) => of_text(alloc, op, left.as_slice(), right),
        Value::Elements(left) => of_set(alloc, op, left.as_slice(), right),
        _ => Ok(on_pointers(store, op, left, right)?),
    }
}

// What the left side of an `and` decides.
fn and_decided(left: &Value) -> Option<Value>
    ensures { option_map view_value result ≡ decided And true (view_value left.now) }
{
    match left {
        Value::Ordinal(a) => {
            if is_true(*a) {
                None
            } else {
                Some(truth(false))
            }
        }
        _ => None,
    }
}

// What the left side of an `or` decides.
fn or_decided(left: &Value) -> Option<Value>
    ensures { option_map view_value result ≡ decided Or true (view_value left.now) }
{
    match left {
        Value::Ordinal(a) => { if is_true(*a) { Some(truth(true)) } else { None } }
        _ => None,
    }
}

/// What the left side of an operator decides alone, where the right one may be left out.
pub fn decided(op: BinaryOp, early: bool, left: &Value) -> Option<Value>
    ensures { option_map view_value result ≡ decided op early (view_value left.now) }
{
    match op {
        BinaryOp::And => { if early { and_decided(left) } else { None } }
        BinaryOp::Or => { if early { or_decided(left) } else { None } }
        BinaryOp::Add
        | BinaryOp::Subtract
        | BinaryOp::Multiply
        | BinaryOp::Divide
        | BinaryOp::Modulo
        | BinaryOp::ShiftLeft
        | BinaryOp::ShiftRight
        | BinaryOp::Xor
        | BinaryOp::Equal
        | BinaryOp::NotEqual
        | BinaryOp::Less
        | BinaryOp::LessOrEqual
        | BinaryOp::Greater
        | BinaryOp::GreaterOrEqual
        | BinaryOp::In => None,
    }
}
