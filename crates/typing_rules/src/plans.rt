//! The rules on operators.

ghost use Rattle.std.specs.Prelude.{◌≡◌};
ghost use Rattle.typing_rules.specs.Plans.{operation_of, is_integer, is_boolean, is_text, are_of_one_host, are_integers, are_booleans, are_texts, are_of_one_base, are_sets, base_holding, is_held_by, is_member, allows, allows_not, sum_rule, is_set, product_rule, rule_of, alike, plain, compared_in, computed, shifted, own_or, set_type, joined_plan, plan_of, turned, may_be_early};

use crate::Rule;
use crate::sorts::{SetBase, Sort, common_type, holding_type};
use scopes::{BOOLEAN, STRING};
use type_layout::TypeId;
use typed_tree::BinaryOp;

/// Operators by the rule that they are under. `Sum` is `+`, `Product` is `-` and `*`, `Quotient` is `div` and `mod`, `Inclusion` is
/// `<=` and `>=`, `Order` is `<` and `>`.
#[derive(Clone, Copy, Debug, PartialEq, Eq)]
pub enum Operation {
    Sum,
    Product,
    Quotient,
    Shift,
    Logic,
    Equality,
    Inclusion,
    Order,
    Membership,
}

/// The types in which the operands are wanted, if in any, and the type of the result.
#[derive(Clone, Copy, Debug, PartialEq, Eq)]
pub struct Plan {
    pub left: Option<TypeId>,
    pub right: Option<TypeId>,
    pub ty: TypeId,
}

/// The rule that an operator is under.
pub fn operation_of(op: BinaryOp) -> Operation
    ensures { result ≡ operation_of op }
{
    match op {
        BinaryOp::Add => Operation::Sum,
        BinaryOp::Subtract | BinaryOp::Multiply => Operation::Product,
        BinaryOp::Divide | BinaryOp::Modulo => Operation::Quotient,
        BinaryOp::ShiftLeft | BinaryOp::ShiftRight => Operation::Shift,
        BinaryOp::And | BinaryOp::Or | BinaryOp::Xor => Operation::Logic,
        BinaryOp::In => Operation::Membership,
        BinaryOp::Equal | BinaryOp::NotEqual => Operation::Equality,
        BinaryOp::LessOrEqual | BinaryOp::GreaterOrEqual => Operation::Inclusion,
        BinaryOp::Less | BinaryOp::Greater => Operation::Order,
    }
}

/// Whether it is an integer.
pub fn is_integer(sort: Sort) -> bool
    ensures { result ≡ is_integer sort }
{
    matches!(sort, Sort::Integer(_))
}

/// Whether it is a Boolean.
pub fn is_boolean(sort: Sort) -> bool
    ensures { result ≡ is_boolean sort }
{
    matches!(sort, Sort::Boolean)
}

/// Whether it is a string or a Char, which stands as one.
pub fn is_text(sort: Sort) -> bool
    ensures { result ≡ is_text sort }
{
    matches!(sort, Sort::Text | Sort::Char)
}

/// Whether two are ordinals of one host.
pub fn are_of_one_host(left: Sort, right: Sort) -> bool
    ensures { result ≡ are_of_one_host left right }
{
    match (left, right) {
        (Sort::Integer(_), Sort::Integer(_)) => true,
        (Sort::Boolean, Sort::Boolean) => true,
        (Sort::Char, Sort::Char) => true,
        (Sort::Enumeration(a), Sort::Enumeration(b)) => a.0 == b.0,
        _ => false,
    }
}

fn are_integers(left: Sort, right: Sort) -> bool
    ensures { result ≡ are_integers left right }
{
    is_integer(left) && is_integer(right)
}

fn are_booleans(left: Sort, right: Sort) -> bool
    ensures { result ≡ are_booleans left right }
{
    is_boolean(left) && is_boolean(right)
}

fn are_texts(left: Sort, right: Sort) -> bool
    ensures { result ≡ are_texts left right }
{
    is_text(left) && is_text(right)
}

/// Whether sets over these have elements of one host. The empty set goes with any.
pub fn are_of_one_base(left: SetBase, right: SetBase) -> bool
    ensures { result ≡ are_of_one_base left right }
{
    match (left, right) {
        (SetBase::Any, _) => true,
        (_, SetBase::Any) => true,
        (SetBase::Integers, SetBase::Integers) => true,
        (SetBase::Booleans, SetBase::Booleans) => true,
        (SetBase::Chars, SetBase::Chars) => true,
        (SetBase::Enumeration(a), SetBase::Enumeration(b)) => a.0 == b.0,
        _ => false,
    }
}

/// Whether two are sets whose elements are of one host.
pub fn are_sets(left: Sort, right: Sort) -> bool
    ensures { result ≡ are_sets left right }
{
    match (left, right) {
        (Sort::Set(a), Sort::Set(b)) => are_of_one_base(a, b),
        _ => false,
    }
}

/// What the elements of the sets are that hold an ordinal.
pub fn base_holding(sort: Sort) -> Option<SetBase>
    ensures { result ≡ base_holding sort }
{
    match sort {
        Sort::Integer(_) => Some(SetBase::Integers),
        Sort::Boolean => Some(SetBase::Booleans),
        Sort::Char => Some(SetBase::Chars),
        Sort::Enumeration(ty) => Some(SetBase::Enumeration(ty)),
        _ => None,
    }
}

fn is_held_by(base: Option<SetBase>, right: Sort) -> bool
    ensures { result ≡ is_held_by base right }
{
    match (base, right) {
        (Some(a), Sort::Set(b)) => are_of_one_base(a, b),
        _ => false,
    }
}

fn is_member(left: Sort, right: Sort) -> bool
    ensures { result ≡ is_member left right }
{
    is_held_by(base_holding(left), right)
}

/// Whether an operator's rule holds of two operands.
pub fn allows(operation: Operation, left: Sort, right: Sort) -> bool
    ensures { result ≡ allows operation left right }
{
    match operation {
        Operation::Sum => {
            are_integers(left, right) || (are_texts(left, right) || are_sets(left, right))
        }
        Operation::Product => are_integers(left, right) || are_sets(left, right),
        Operation::Quotient | Operation::Shift => are_integers(left, right),
        Operation::Logic => are_integers(left, right) || are_booleans(left, right),
        Operation::Equality | Operation::Inclusion => {
            are_of_one_host(left, right) || (are_texts(left, right) || are_sets(left, right))
        }
        Operation::Order => are_of_one_host(left, right) || are_texts(left, right),
        Operation::Membership => is_member(left, right),
    }
}

/// Whether the rule on `not` holds of an operand.
pub fn allows_not(sort: Sort) -> bool
    ensures { result ≡ allows_not sort }
{
    is_integer(sort) || is_boolean(sort)
}

fn sum_rule(left: Sort, right: Sort) -> Rule
    ensures { result ≡ sum_rule left right }
{
    if is_integer(left) || is_integer(right) {
        Rule::Arithmetic
    } else {
        Rule::Joined
    }
}

fn is_set(sort: Sort) -> bool
    ensures { result ≡ is_set sort }
{
    matches!(sort, Sort::Set(_))
}

fn product_rule(left: Sort, right: Sort) -> Rule
    ensures { result ≡ product_rule left right }
{
    if is_set(left) && is_set(right) {
        Rule::Joined
    } else {
        Rule::Arithmetic
    }
}

/// The rule that is broken where an operator's rule doesn't hold.
pub fn rule_of(operation: Operation, left: Sort, right: Sort) -> Rule
    ensures { result ≡ rule_of operation left right }
{
    match operation {
        Operation::Sum => sum_rule(left, right),
        Operation::Product => product_rule(left, right),
        Operation::Quotient | Operation::Shift => Rule::Arithmetic,
        Operation::Logic => Rule::Logic,
        Operation::Equality | Operation::Inclusion | Operation::Order => Rule::Compared,
        Operation::Membership => Rule::Membership,
    }
}

fn alike(wanted: Option<TypeId>, ty: TypeId) -> Plan
    ensures { result ≡ alike wanted ty }
{
    Plan {
        left: wanted,
        right: wanted,
        ty,
    }
}

fn plain(ty: TypeId) -> Plan
    ensures { result ≡ plain ty }
{
    alike(Some(ty), ty)
}

fn compared_in(left: Sort, right: Sort) -> Option<TypeId>
    ensures { result ≡ compared_in left right }
{
    match (left, right) {
        (Sort::Integer(a), Sort::Integer(b)) => Some(common_type(a, b)),
        (Sort::Text, _) => Some(STRING),
        (_, Sort::Text) => Some(STRING),
        _ => None,
    }
}

// Integers in their common type, others in this one.
fn computed(other: TypeId, left: Sort, right: Sort) -> Plan
    ensures { result ≡ computed other left right }
{
    match (left, right) {
        (Sort::Integer(a), Sort::Integer(b)) => plain(common_type(a, b)),
        _ => plain(other),
    }
}

fn shifted(sort: Sort) -> Plan
    ensures { result ≡ shifted sort }
{
    match sort {
        Sort::Integer(range) => {
            let ty = holding_type(range);
            Plan {
                left: Some(ty),
                right: None,
                ty,
            }
        }
        _ => plain(BOOLEAN),
    }
}

fn own_or(ty: TypeId, own: Option<TypeId>) -> TypeId
    ensures { result ≡ own_or ty own }
{
    match own {
        Some(own) => own,
        None => ty,
    }
}

// The type of two sets together: that of the left one, or of the right one where the left one may be over any base.
fn set_type(base: SetBase, left: Option<TypeId>, right: Option<TypeId>) -> TypeId
    ensures { result ≡ set_type base left right }
{
    let first = own_or(BOOLEAN, left);
    match base {
        SetBase::Any => own_or(first, right),
        _ => first,
    }
}

// Sets as they are, others as they are computed.
fn joined_plan(
    wide: TypeId,
    left: Sort,
    right: Sort,
    own: Option<TypeId>,
    other: Option<TypeId>,
) -> Plan
    ensures { result ≡ joined_plan wide left right own other }
{
    match left {
        Sort::Set(base) => alike(None, set_type(base, own, other)),
        _ => computed(wide, left, right),
    }
}

/// The types that an operator gives its operands, whose own types these are, and its result, where its rule holds.
pub(crate) fn plan_of(
    operation: Operation,
    left: Sort,
    right: Sort,
    own: Option<TypeId>,
    other: Option<TypeId>,
) -> Plan
    ensures { result ≡ plan_of operation left right own other }
{
    match operation {
        Operation::Sum => joined_plan(STRING, left, right, own, other),
        Operation::Product => joined_plan(BOOLEAN, left, right, own, other),
        Operation::Shift => shifted(left),
        Operation::Equality | Operation::Inclusion | Operation::Order => {
            alike(compared_in(left, right), BOOLEAN)
        }
        Operation::Membership => alike(None, BOOLEAN),
        Operation::Logic | Operation::Quotient => computed(BOOLEAN, left, right),
    }
}

/// The type of a sign's or a `not`'s result, in which the operand is wanted too.
pub fn turned(sort: Sort) -> TypeId
    ensures { result ≡ turned sort }
{
    match sort {
        Sort::Integer(range) => holding_type(range),
        _ => BOOLEAN,
    }
}

/// Whether the left side may decide alone.
pub(crate) fn may_be_early(op: BinaryOp, left: Sort) -> bool
    ensures { result ≡ may_be_early op left }
{
    match op {
        BinaryOp::And | BinaryOp::Or => is_boolean(left),
        _ => false,
    }
}
