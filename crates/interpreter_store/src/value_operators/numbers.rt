//! The operators on ordinals that compute.

ghost use Rattle.std.specs.Prelude.{◌≡◌, pos, ◌-ℤ◌, ◌*ℤ◌, neg_ℤ, bit_and, bit_or, bit_xor};
ghost use Rattle.tp_meaning.specs.Shapes.{stored_among, kept_as};
ghost use Rattle.tp_meaning.specs.Operators.{bitwise, truth_number, truth, is_true, is_boolean, complement, unary_number, arithmetic, differ, logic, computed};
ghost use Rattle.interpreter_store.specs.cell_store.Views.{view_value};
ghost use Rattle.interpreter_store.specs.cell_store.Finding.{Finds};

use crate::cell_store::{Trap, Value};
use common_values::bits::{bitwise_and, bitwise_or, bitwise_xor};
use common_values::ordinals::{IntegerType, kept, left_shift, quotient, remainder, right_shift};
use type_layout::Host;
use typed_tree::{BinaryOp, UnaryOp};

/// The integers that an ordinal is stored among.
pub fn stored_among(host: Host) -> IntegerType
    ensures { result ≡ stored_among host }
{
    match host {
        Host::ShortInt => IntegerType::ShortInt,
        Host::Byte | Host::Char | Host::Boolean | Host::Enumeration => IntegerType::Byte,
        Host::Integer => IntegerType::Integer,
        Host::Word => IntegerType::Word,
        Host::LongInt => IntegerType::LongInt,
    }
}

/// What is left of a number in the low bytes of what stores the host.
pub fn kept_as(host: Host, value: i64) -> i32
    ensures { result ≡ kept_as host value }
{
    kept(stored_among(host), value)
}

/// The number of a Boolean.
pub fn truth_number(holds: bool) -> i32
    ensures { result ≡ truth_number holds }
{
    if holds { 1 } else { 0 }
}

/// A Boolean as a value.
pub fn truth(holds: bool) -> Value
    ensures { view_value result ≡ truth holds }
{
    Value::Ordinal(truth_number(holds))
}

/// Whether a number stands for true: it isn't 0.
pub fn is_true(z: i32) -> bool
    ensures { result ≡ is_true z }
{
    z != 0
}

fn is_boolean(host: Host) -> bool
    ensures { result ≡ is_boolean host }
{
    match host {
        Host::Boolean => true,
        Host::ShortInt
        | Host::Byte
        | Host::Integer
        | Host::Word
        | Host::LongInt
        | Host::Char
        | Host::Enumeration => false,
    }
}

// The number whose bits are all others.
fn flipped(z: i32) -> i64
    ensures { result ≡ neg_ℤ z -ℤ pos 1 }
{
    -i64::from(z) - 1
}

fn complement(host: Host, z: i32) -> i32
    ensures { result ≡ complement host z }
{
    if is_boolean(host) {
        truth_number(!is_true(z))
    } else {
        kept_as(host, flipped(z))
    }
}

/// The operator with one operand, on a number that is stored so.
pub(crate) fn unary_number(op: UnaryOp, host: Host, z: i32) -> i32
    ensures { result ≡ unary_number op host z }
{
    match op {
        UnaryOp::Plus => z,
        UnaryOp::Minus => kept_as(host, -i64::from(z)),
        UnaryOp::Not => complement(host, z),
    }
}

fn product(a: i32, b: i32) -> i64
    ensures { result ≡ a *ℤ b }
{
    i64::from(a) * i64::from(b)
}

#[tactic(auto, using(crate::proofs::value_operators::Bitwise::conjunction_is))]
fn conjunction(kind: IntegerType, a: i32, b: i32) -> i32
    ensures { result ≡ bitwise bit_and kind a b }
{
    bitwise_and(kind, a, b)
}

#[tactic(auto, using(crate::proofs::value_operators::Bitwise::disjunction_is))]
fn disjunction(kind: IntegerType, a: i32, b: i32) -> i32
    ensures { result ≡ bitwise bit_or kind a b }
{
    bitwise_or(kind, a, b)
}

#[tactic(auto, using(crate::proofs::value_operators::Bitwise::exclusive_is))]
fn exclusive_disjunction(kind: IntegerType, a: i32, b: i32) -> i32
    ensures { result ≡ bitwise bit_xor kind a b }
{
    bitwise_xor(kind, a, b)
}

/// An operator in a type of integers. A divisor of 0 is error 200.
pub fn arithmetic(op: BinaryOp, kind: IntegerType, a: i32, b: i32) -> Result<i32, Trap>
    ensures { Finds (λ z. z) result (arithmetic op kind a b) }
{
    match op {
        BinaryOp::Add => Ok(kept(kind, i64::from(a) + i64::from(b))),
        BinaryOp::Subtract => Ok(kept(kind, i64::from(a) - i64::from(b))),
        BinaryOp::Multiply => Ok(kept(kind, product(a, b))),
        BinaryOp::Divide => {
            if b == 0 {
                return Err(Trap::Error(200));
            }
            Ok(quotient(kind, a, b))
        }
        BinaryOp::Modulo => {
            if b == 0 {
                return Err(Trap::Error(200));
            }
            Ok(remainder(kind, a, b))
        }
        BinaryOp::ShiftLeft => Ok(left_shift(kind, a, b)),
        BinaryOp::ShiftRight => Ok(right_shift(kind, a, b)),
        BinaryOp::And => Ok(conjunction(kind, a, b)),
        BinaryOp::Or => Ok(disjunction(kind, a, b)),
        BinaryOp::Xor => Ok(exclusive_disjunction(kind, a, b)),
        BinaryOp::Equal
        | BinaryOp::NotEqual
        | BinaryOp::Less
        | BinaryOp::LessOrEqual
        | BinaryOp::Greater
        | BinaryOp::GreaterOrEqual
        | BinaryOp::In => Err(Trap::IllTyped),
    }
}

fn differ(a: bool, b: bool) -> bool
    ensures { result ≡ differ a b }
{
    if a { !b } else { b }
}

fn logic(op: BinaryOp, a: bool, b: bool) -> Result<bool, Trap>
    ensures { Finds (λ c. c) result (logic op a b) }
{
    match op {
        BinaryOp::And => Ok(a && b),
        BinaryOp::Or => Ok(a || b),
        BinaryOp::Xor => Ok(differ(a, b)),
        BinaryOp::Add
        | BinaryOp::Subtract
        | BinaryOp::Multiply
        | BinaryOp::Divide
        | BinaryOp::Modulo
        | BinaryOp::ShiftLeft
        | BinaryOp::ShiftRight
        | BinaryOp::Equal
        | BinaryOp::NotEqual
        | BinaryOp::Less
        | BinaryOp::LessOrEqual
        | BinaryOp::Greater
        | BinaryOp::GreaterOrEqual
        | BinaryOp::In => Err(Trap::IllTyped),
    }
}

/// An operator that computes, on numbers whose result is stored so: bit by bit, or on Booleans.
pub(crate) fn computed(op: BinaryOp, stored: Option<Host>, a: i32, b: i32) -> Result<Value, Trap>
    ensures { Finds view_value result (computed op stored a b) }
{
    let Some(host) = stored else {
        return Err(Trap::IllTyped);
    };
    if is_boolean(host) {
        return Ok(truth(logic(op, is_true(a), is_true(b))?));
    }
    Ok(Value::Ordinal(arithmetic(op, stored_among(host), a, b)?))
}
