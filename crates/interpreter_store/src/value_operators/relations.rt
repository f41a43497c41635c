//! Relations.

ghost use Rattle.std.specs.Prelude.{◌≡◌, Err};
ghost use Rattle.std.specs.Ordering.{int_cmp};
ghost use Rattle.common_values.specs.Strings.{compared as order_of};
ghost use Rattle.tp_meaning.specs.Trees.{Nil, Block};
ghost use Rattle.tp_meaning.specs.Found.{IllTyped};
ghost use Rattle.tp_meaning.specs.Store.{Store as PureStore};
ghost use Rattle.tp_meaning.specs.Operators.{is_equal, is_less, relation, related_or, on_ordinals, equality, same_pointer, on_pointers, membership};
ghost use Rattle.interpreter_store.specs.cell_store.Views.{view_value, view_store};
ghost use Rattle.interpreter_store.specs.cell_store.Finding.{Finds};

use crate::cell_store::{Store, Trap, Value};
use crate::value_operators::numbers::{computed, truth};
use common_values::sets::is_member;
use common_values::strings::compared;
use std::cmp::Ordering;
use type_layout::Host;
use typed_tree::BinaryOp;

fn is_equal(order: Ordering) -> bool
    ensures { result ≡ is_equal order }
{
    match order {
        Ordering::Equal => true,
        Ordering::Less | Ordering::Greater => false,
    }
}

fn is_less(order: Ordering) -> bool
    ensures { result ≡ is_less order }
{
    match order {
        Ordering::Less => true,
        Ordering::Equal | Ordering::Greater => false,
    }
}

// The relation where the operands are ordered so, if the operator is one.
fn relation(op: BinaryOp, order: Ordering) -> Option<bool>
    ensures { result ≡ relation op order }
{
    match op {
        BinaryOp::Equal => Some(is_equal(order)),
        BinaryOp::NotEqual => Some(!is_equal(order)),
        BinaryOp::Less => Some(is_less(order)),
        BinaryOp::LessOrEqual => Some(is_less(order) || is_equal(order)),
        BinaryOp::Greater => Some(!(is_less(order) || is_equal(order))),
        BinaryOp::GreaterOrEqual => Some(!is_less(order)),
        BinaryOp::Add
        | BinaryOp::Subtract
        | BinaryOp::Multiply
        | BinaryOp::Divide
        | BinaryOp::Modulo
        | BinaryOp::ShiftLeft
        | BinaryOp::ShiftRight
        | BinaryOp::And
        | BinaryOp::Or
        | BinaryOp::Xor
        | BinaryOp::In => None,
    }
}

/// An operator on two numbers.
pub(crate) fn on_ordinals(op: BinaryOp, stored: Option<Host>, a: i32, b: i32) -> Result<Value, Trap>
    ensures { Finds view_value result (on_ordinals op stored a b) }
{
    match relation(op, a.cmp(&b)) {
        Some(holds) => Ok(truth(holds)),
        None => computed(op, stored, a, b),
    }
}

/// A relation of two texts.
pub(crate) fn related_texts(op: BinaryOp, a: &[u8], b: &[u8]) -> Result<Value, Trap>
    ensures { Finds view_value result (related_or (relation op (order_of a.now b.now)) (Err IllTyped)) }
{
    match relation(op, compared(a, b)) {
        Some(holds) => Ok(truth(holds)),
        None => Err(Trap::IllTyped),
    }
}

/// The operator `in`.
pub(crate) fn membership(op: BinaryOp, z: i32, set: &[u8]) -> Result<Value, Trap>
    ensures { Finds view_value result (membership op z set.now) }
{
    match op {
        BinaryOp::In => Ok(truth(is_member(set, z))),
        BinaryOp::Add
        | BinaryOp::Subtract
        | BinaryOp::Multiply
        | BinaryOp::Divide
        | BinaryOp::Modulo
        | BinaryOp::ShiftLeft
        | BinaryOp::ShiftRight
        | BinaryOp::And
        | BinaryOp::Or
        | BinaryOp::Xor
        | BinaryOp::Equal
        | BinaryOp::NotEqual
        | BinaryOp::Less
        | BinaryOp::LessOrEqual
        | BinaryOp::Greater
        | BinaryOp::GreaterOrEqual => Err(Trap::IllTyped),
    }
}

// Whether two pointers lead to one block, where both lead to one that is there.
fn same_block(store: &Store, a: usize, b: usize) -> Result<bool, Trap>
    ensures { Finds (λ same. same) result (same_pointer (view_store store.now) (Block a) (Block b)) }
{
    let a = store.followed(&Value::Block(a))?;
    let b = store.followed(&Value::Block(b))?;
    Ok(a == b)
}

// Whether a pointer is nil.
fn is_nil(a: &Value) -> Result<bool, Trap>
    ensures { (store : PureStore) → Finds (λ same. same) result (same_pointer store Nil (view_value a.now)) }
{
    match a {
        Value::Nil => Ok(true),
        Value::Block(_) => Ok(false),
        _ => Err(Trap::IllTyped),
    }
}

// Whether a pointer leads to a block.
fn is_block(store: &Store, a: usize, b: &Value) -> Result<bool, Trap>
    ensures { Finds (λ same. same) result (same_pointer (view_store store.now) (Block a) (view_value b.now)) }
{
    match b {
        Value::Nil => Ok(false),
        Value::Block(b) => same_block(store, a, *b),
        _ => Err(Trap::IllTyped),
    }
}

fn same_pointer(store: &Store, a: &Value, b: &Value) -> Result<bool, Trap>
    ensures { Finds (λ same. same) result (same_pointer (view_store store.now) (view_value a.now) (view_value b.now)) }
{
    match a {
        Value::Nil => is_nil(b),
        Value::Block(a) => is_block(store, *a, b),
        _ => Err(Trap::IllTyped),
    }
}

fn equality(op: BinaryOp, same: bool) -> Result<Value, Trap>
    ensures { Finds view_value result (equality op same) }
{
    match op {
        BinaryOp::Equal => Ok(truth(same)),
        BinaryOp::NotEqual => Ok(truth(!same)),
        BinaryOp::Add
        | BinaryOp::Subtract
        | BinaryOp::Multiply
        | BinaryOp::Divide
        | BinaryOp::Modulo
        | BinaryOp::ShiftLeft
        | BinaryOp::ShiftRight
        | BinaryOp::And
        | BinaryOp::Or
        | BinaryOp::Xor
        | BinaryOp::Less
        | BinaryOp::LessOrEqual
        | BinaryOp::Greater
        | BinaryOp::GreaterOrEqual
        | BinaryOp::In => Err(Trap::IllTyped),
    }
}

/// Whether a pointer is another one. A pointer to a block that is gone is compared with nil alone.
pub(crate) fn on_pointers(store: &Store, op: BinaryOp, a: &Value, b: &Value) -> Result<Value, Trap>
    ensures { Finds view_value result (on_pointers (view_store store.now) op (view_value a.now) (view_value b.now)) }
{
    equality(op, same_pointer(store, a, b)?)
}
