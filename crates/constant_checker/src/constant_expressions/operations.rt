//! Operators on constants.

ghost use Rattle.std.specs.Prelude.{◌≡◌, Ok, Some, IfOk};
ghost use Rattle.typing_rules.specs.Judgements.{Gives};
ghost use Rattle.constant_checker.specs.constant_expressions.Values.{itself, text, bytes_of, taken, computed, compares, elements_of, base_in, elements_combined, sets_combined, is_equal, is_less, relates, sets_relate, values_relate, related, of_sort, numbered, combined_values, allowed, combined, signed, turned, negated};
ghost use Rattle.typing_rules.specs.Plans.{set_type};
ghost use Rattle.common_values.specs.Strings.{joined, compared as order_of};

use crate::constant_expressions::constants::{
    Constant, bytes_of, elements_of, integer, number_of, set_constant, truth,
};
use common_values::bits::{bitwise_and, bitwise_not, bitwise_or, bitwise_xor};
use common_values::ordinals::{IntegerType, kept, left_shift, quotient, remainder, right_shift};
use common_values::sets::{difference, intersection, is_member, is_same, is_subset, union};
use common_values::strings::{compared, joined};
use scopes::STRING;
use std::alloc::{AllocError, Global};
use std::cmp::Ordering;
use type_layout::{Bytes, Place, TypeId, Types};
use typed_tree::{BinaryOp, UnaryOp, Value};
use typing_rules::{
    Operation, Refusal, Rule, SetBase, Sort, allows, allows_not, broken, is_integer, is_text,
    operation_of, rule_of, sign_value, sort_of_constant, sort_of_type,
};

const WIDE: IntegerType = IntegerType::LongInt;

// What an operator takes of an ordinal: an integer as it is, a Boolean as 0 or 1.
fn taken(sort: Sort, number: i32) -> i32
    ensures { result ≡ taken sort number }
{
    if is_integer(sort) {
        number
    } else if number == 0 {
        0
    } else {
        1
    }
}

// An operator on 32 bits; nothing where a divisor is 0.
fn computed(op: BinaryOp, left: i32, right: i32) -> Option<i32>
    ensures { result ≡ computed op left right }
{
    match op {
        BinaryOp::Add => Some(kept(WIDE, i64::from(left) + i64::from(right))),
        BinaryOp::Subtract => Some(kept(WIDE, i64::from(left) - i64::from(right))),
        BinaryOp::Multiply => Some(kept(WIDE, i64::from(left) * i64::from(right))),
        BinaryOp::Divide if right != 0 => Some(quotient(WIDE, left, right)),
        BinaryOp::Modulo if right != 0 => Some(remainder(WIDE, left, right)),
        BinaryOp::ShiftLeft => Some(left_shift(WIDE, left, right)),
        BinaryOp::ShiftRight => Some(right_shift(WIDE, left, right)),
        BinaryOp::And => Some(bitwise_and(WIDE, left, right)),
        BinaryOp::Or => Some(bitwise_or(WIDE, left, right)),
        BinaryOp::Xor => Some(bitwise_xor(WIDE, left, right)),
        _ => None,
    }
}

fn compares(operation: Operation) -> bool
    ensures { result ≡ compares operation }
{
    matches!(
        operation,
        Operation::Equality | Operation::Inclusion | Operation::Order | Operation::Membership
    )
}

// What the elements of a set are.
fn base_in(sort: Sort) -> Option<SetBase>
    ensures { result ≡ base_in sort }
{
    match sort {
        Sort::Set(base) => Some(base),
        _ => None,
    }
}

// The type of two sets together.
fn set_type(base: SetBase, left: TypeId, right: TypeId) -> TypeId
    ensures { result ≡ set_type base (Some left) (Some right) }
{
    match base {
        SetBase::Any => right,
        _ => left,
    }
}

fn elements_combined(
    alloc: Global,
    op: BinaryOp,
    left: &[u8],
    right: &[u8],
) -> Result<Vec<u8>, AllocError>
    ensures { IfOk result (λ all. all.items ≡ elements_combined op left.now right.now) }
{
    match op {
        BinaryOp::Add => union(alloc, left, right),
        BinaryOp::Subtract => difference(alloc, left, right),
        _ => intersection(alloc, left, right),
    }
}

// Two sets under an operator.
fn sets_combined(
    alloc: Global,
    op: BinaryOp,
    base: SetBase,
    left: &Constant,
    right: &Constant,
) -> Result<Constant, Refusal>
    ensures { Gives itself result (Ok (sets_combined op base left.now right.now)) }
{
    let first = elements_of(&left.value);
    let second = elements_of(&right.value);
    let elements = elements_combined(alloc, op, first, second)?;
    set_constant(
        alloc,
        set_type(base, left.ty, right.ty),
        elements.as_slice(),
    )
}

fn of_sort(sort: Sort, number: i32) -> Constant
    ensures { result ≡ of_sort sort number }
{
    if is_integer(sort) {
        integer(number)
    } else {
        truth(number)
    }
}

fn numbered(place: Place, sort: Sort, number: Option<i32>) -> Result<Constant, Refusal>
    ensures { Gives itself result (numbered place sort number).run }
{
    match number {
        Some(number) => Ok(of_sort(sort, number)),
        None => Err(Refusal::Because(broken(place, Rule::Constant))),
    }
}

fn join(alloc: Global, left: &Value, right: &Value) -> Result<Constant, Refusal>
    ensures { Gives itself result (Ok (text (joined (bytes_of left.now) (bytes_of right.now)))) }
{
    let left = bytes_of(alloc, left)?;
    let right = bytes_of(alloc, right)?;
    let whole = joined(alloc, left.as_slice(), right.as_slice())?;
    Ok(Constant {
        ty: STRING,
        value: Value::Chars(Bytes::from_vec(whole)),
    })
}

fn is_equal(order: Ordering) -> bool
    ensures { result ≡ is_equal order }
{
    match order {
        Ordering::Equal => true,
        Ordering::Less | Ordering::Greater => false,
    }
}

fn is_less(order: Ordering) -> bool
    ensures { result ≡ is_less order }
{
    match order {
        Ordering::Less => true,
        Ordering::Equal | Ordering::Greater => false,
    }
}

// Whether a relation holds where the operands are ordered so.
fn relates(op: BinaryOp, order: Ordering) -> bool
    ensures { result ≡ relates op order }
{
    match op {
        BinaryOp::Equal => is_equal(order),
        BinaryOp::NotEqual => !is_equal(order),
        BinaryOp::Less => is_less(order),
        BinaryOp::LessOrEqual => is_less(order) || is_equal(order),
        BinaryOp::Greater => !(is_less(order) || is_equal(order)),
        BinaryOp::GreaterOrEqual => !is_less(order),
        _ => false,
    }
}

fn sets_relate(op: BinaryOp, left: &[u8], right: &[u8]) -> bool
    ensures { result ≡ sets_relate op left.now right.now }
{
    match op {
        BinaryOp::Equal => is_same(left, right),
        BinaryOp::NotEqual => !is_same(left, right),
        BinaryOp::LessOrEqual => is_subset(left, right),
        BinaryOp::GreaterOrEqual => is_subset(right, left),
        _ => false,
    }
}

fn texts_relate(
    alloc: Global,
    op: BinaryOp,
    left: &Value,
    right: &Value,
) -> Result<bool, AllocError>
    ensures { IfOk result (λ holds. holds ≡ relates op (order_of (bytes_of left.now) (bytes_of right.now))) }
{
    let left = bytes_of(alloc, left)?;
    let right = bytes_of(alloc, right)?;
    Ok(relates(op, compared(left.as_slice(), right.as_slice())))
}

// Whether a relation of two values holds: of sets, of texts or of numbers, by what the left one is.
fn values_relate(
    alloc: Global,
    op: BinaryOp,
    sort: Sort,
    left: &Value,
    right: &Value,
) -> Result<bool, AllocError>
    ensures { IfOk result (λ holds. holds ≡ values_relate op sort (base_in sort) left.now right.now) }
{
    match base_in(sort) {
        Some(_) => Ok(sets_relate(op, elements_of(left), elements_of(right))),
        None if is_text(sort) => texts_relate(alloc, op, left, right),
        None => Ok(relates(op, number_of(left).cmp(&number_of(right)))),
    }
}

#[tactic(auto, unfolding(crate::specs::constant_expressions::Values::related))]
fn related(
    alloc: Global,
    operation: Operation,
    op: BinaryOp,
    sort: Sort,
    left: &Value,
    right: &Value,
) -> Result<bool, AllocError>
    ensures { IfOk result (λ holds. holds ≡ related operation op sort left.now right.now) }
{
    match operation {
        Operation::Membership => Ok(is_member(elements_of(right), number_of(left))),
        _ => values_relate(alloc, op, sort, left, right),
    }
}

fn combined_values(
    alloc: Global,
    place: Place,
    op: BinaryOp,
    sort: Sort,
    left: &Constant,
    right: &Constant,
) -> Result<Constant, Refusal>
    ensures { Gives itself result (combined_values place op sort (base_in sort) left.now right.now).run }
{
    match base_in(sort) {
        Some(base) => sets_combined(alloc, op, base, left, right),
        None if is_text(sort) => join(alloc, &left.value, &right.value),
        None => {
            let first = taken(sort, number_of(&left.value));
            let second = taken(sort, number_of(&right.value));
            numbered(place, sort, computed(op, first, second))
        }
    }
}

// What an operator makes whose operands are allowed.
#[tactic(auto, unfolding(crate::specs::constant_expressions::Values::allowed))]
fn allowed(
    alloc: Global,
    place: Place,
    op: BinaryOp,
    sort: Sort,
    left: &Constant,
    right: &Constant,
) -> Result<Constant, Refusal>
    ensures { Gives itself result (allowed place op sort left.now right.now).run }
{
    let operation = operation_of(op);
    if compares(operation) {
        let holds = related(alloc, operation, op, sort, &left.value, &right.value)?;
        return Ok(truth(if holds { 1 } else { 0 }));
    }
    combined_values(alloc, place, op, sort, left, right)
}

/// An operator at a place with two constants.
#[tactic(auto, unfolding(crate::specs::constant_expressions::Values::combined))]
pub(crate) fn combined(
    alloc: Global,
    types: &Types,
    place: Place,
    op: BinaryOp,
    left: Constant,
    right: Constant,
) -> Result<Constant, Refusal>
    ensures { Gives itself result (combined types.now.types place op left right).run }
{
    let first = sort_of_constant(types, left.ty, &left.value);
    let second = sort_of_constant(types, right.ty, &right.value);
    let operation = operation_of(op);
    if !allows(operation, first, second) {
        let rule = rule_of(operation, first, second);
        return Err(Refusal::Because(broken(place, rule)));
    }
    allowed(alloc, place, op, first, &left, &right)
}

/// A sign at a place.
#[tactic(auto, unfolding(crate::specs::constant_expressions::Values::signed))]
pub(crate) fn signed(
    types: &Types,
    place: Place,
    op: UnaryOp,
    operand: Constant,
) -> Result<Constant, Refusal>
    ensures { Gives itself result (signed types.now.types place op operand).run }
{
    if is_integer(sort_of_type(types, operand.ty)) {
        Ok(integer(sign_value(op, number_of(&operand.value))))
    } else {
        Err(Refusal::Because(broken(place, Rule::Arithmetic)))
    }
}

fn turned(sort: Sort, number: i32) -> Constant
    ensures { result ≡ turned sort number }
{
    if is_integer(sort) {
        integer(bitwise_not(WIDE, number))
    } else {
        truth(if number == 0 { 1 } else { 0 })
    }
}

/// A `not` at a place.
#[tactic(auto, unfolding(crate::specs::constant_expressions::Values::negated))]
pub(crate) fn negated(types: &Types, place: Place, operand: Constant) -> Result<Constant, Refusal>
    ensures { Gives itself result (negated types.now.types place operand).run }
{
    let sort = sort_of_type(types, operand.ty);
    if allows_not(sort) {
        Ok(turned(sort, number_of(&operand.value)))
    } else {
        Err(Refusal::Because(broken(place, Rule::Logic)))
    }
}
