//! Operators on typed operands.

ghost use Rattle.std.specs.Prelude.{◌≡◌, Ok};
ghost use Rattle.typed_tree.specs.Expressions.{view_expr, type_of};
ghost use Rattle.typing_rules.specs.Sorts.{sort_of};
ghost use Rattle.typing_rules.specs.Judgements.{Gives};
ghost use Rattle.typing_rules.specs.Operators.{planned, allows_pointers, pointer_plan, pointers, plain, combined, negative, sign_value, turned_node, signed_node, signed, negated};

use crate::faults::{Refusal, Rule, broken};
use crate::joins::{are_pointers, are_pointers_joined};
use crate::plans::{
    Operation, Plan, allows, allows_not, is_integer, may_be_early, operation_of, plan_of, rule_of,
    turned,
};
use crate::sorts::{Sort, number_type, sort_of, type_of};
use crate::wanting::{wanted, wanted_in};
use scopes::BOOLEAN;
use std::alloc::Global;
use type_layout::{Place, TypeId, Types};
use typed_tree::{BinaryOp, Expr, UnaryOp, Value};

fn planned(
    alloc: Global,
    types: &Types,
    op: BinaryOp,
    early: bool,
    plan: Plan,
    left: Expr,
    right: Expr,
) -> Result<Expr, Refusal>
    ensures { Gives view_expr result (Ok (planned types.now.types op early plan (view_expr left) (view_expr right))) }
{
    let left = wanted_in(alloc, types, plan.left, left)?;
    let right = wanted_in(alloc, types, plan.right, right)?;
    Ok(Expr::Binary {
        ty: plan.ty,
        op,
        left: Box::new(alloc, left)?,
        right: Box::new(alloc, right)?,
        early,
    })
}

fn allows_pointers(
    types: &Types,
    operation: Operation,
    left: Sort,
    right: Sort,
    own: Option<TypeId>,
    other: Option<TypeId>,
) -> bool
    ensures { result ≡ allows_pointers types.now.types operation left right own other }
{
    match operation {
        Operation::Equality => are_pointers_joined(types, left, right, own, other),
        _ => false,
    }
}

fn pointer_plan(own: Option<TypeId>, other: Option<TypeId>) -> Plan
    ensures { result ≡ pointer_plan own other }
{
    Plan {
        left: other,
        right: own,
        ty: BOOLEAN,
    }
}

fn pointers(
    alloc: Global,
    types: &Types,
    place: Place,
    op: BinaryOp,
    left: Expr,
    right: Expr,
) -> Result<Expr, Refusal>
    ensures { Gives view_expr result (pointers types.now.types place op (sort_of types.now.types (view_expr left)) (sort_of types.now.types (view_expr right)) (view_expr left) (view_expr right)).run }
{
    let first = sort_of(types, &left);
    let second = sort_of(types, &right);
    let operation = operation_of(op);
    let own = type_of(&left);
    let other = type_of(&right);
    if !allows_pointers(types, operation, first, second, own, other) {
        let rule = rule_of(operation, first, second);
        return Err(Refusal::Because(broken(place, rule)));
    }
    planned(
        alloc,
        types,
        op,
        false,
        pointer_plan(own, other),
        left,
        right,
    )
}

fn plain(
    alloc: Global,
    types: &Types,
    place: Place,
    op: BinaryOp,
    early: bool,
    left: Expr,
    right: Expr,
) -> Result<Expr, Refusal>
    ensures { Gives view_expr result (plain types.now.types place op early (sort_of types.now.types (view_expr left)) (sort_of types.now.types (view_expr right)) (view_expr left) (view_expr right)).run }
{
    let first = sort_of(types, &left);
    let second = sort_of(types, &right);
    let operation = operation_of(op);
    if !allows(operation, first, second) {
        let rule = rule_of(operation, first, second);
        return Err(Refusal::Because(broken(place, rule)));
    }
    let plan = plan_of(operation, first, second, type_of(&left), type_of(&right));
    let early = early && may_be_early(op, first);
    planned(alloc, types, op, early, plan, left, right)
}

/// The node of an operator at a place with two operands. With `early`, an `and` or `or` of Booleans leaves out its right
/// side where the left one decides.
#[tactic(auto, unfolding(crate::specs::Operators::combined))]
pub fn combined(
    alloc: Global,
    types: &Types,
    place: Place,
    op: BinaryOp,
    early: bool,
    left: Expr,
    right: Expr,
) -> Result<Expr, Refusal>
    ensures { Gives view_expr result (combined types.now.types place op early (view_expr left) (view_expr right)).run }
{
    if are_pointers(sort_of(types, &left), sort_of(types, &right)) {
        pointers(alloc, types, place, op, left, right)
    } else {
        plain(alloc, types, place, op, early, left, right)
    }
}

fn negative(number: i32) -> i32
    ensures { result ≡ negative number }
{
    if number == i32::MIN { number } else { -number }
}

/// What a sign makes of a number, on 32 bits.
pub fn sign_value(op: UnaryOp, number: i32) -> i32
    ensures { result ≡ sign_value op number }
{
    match op {
        UnaryOp::Minus => negative(number),
        UnaryOp::Plus | UnaryOp::Not => number,
    }
}

fn turned_node(
    alloc: Global,
    types: &Types,
    op: UnaryOp,
    sort: Sort,
    operand: Expr,
) -> Result<Expr, Refusal>
    ensures { Gives view_expr result (Ok (turned_node types.now.types op sort (view_expr operand))) }
{
    let ty = turned(sort);
    let operand = wanted(alloc, types, ty, operand)?;
    Ok(Expr::Unary {
        ty,
        op,
        operand: Box::new(alloc, operand)?,
    })
}

fn signed_node(
    alloc: Global,
    types: &Types,
    op: UnaryOp,
    sort: Sort,
    operand: Expr,
) -> Result<Expr, Refusal>
    ensures { Gives view_expr result (Ok (signed_node types.now.types op sort (view_expr operand))) }
{
    match operand {
        Expr::Const {
            value: Value::Number(number),
            ..
        } => {
            let number = sign_value(op, number);
            Ok(Expr::Const {
                ty: number_type(number),
                value: Value::Number(number),
            })
        }
        _ => turned_node(alloc, types, op, sort, operand),
    }
}

/// The node of a sign at a place, which before a constant makes a constant.
#[tactic(auto, unfolding(crate::specs::Operators::signed))]
pub fn signed(
    alloc: Global,
    types: &Types,
    place: Place,
    op: UnaryOp,
    operand: Expr,
) -> Result<Expr, Refusal>
    ensures { Gives view_expr result (signed types.now.types place op (view_expr operand)).run }
{
    let sort = sort_of(types, &operand);
    if is_integer(sort) {
        signed_node(alloc, types, op, sort, operand)
    } else {
        Err(Refusal::Because(broken(place, Rule::Arithmetic)))
    }
}

/// The node of a `not` at a place.
#[tactic(auto, unfolding(crate::specs::Operators::negated))]
pub fn negated(alloc: Global, types: &Types, place: Place, operand: Expr) -> Result<Expr, Refusal>
    ensures { Gives view_expr result (negated types.now.types place (view_expr operand)).run }
{
    let sort = sort_of(types, &operand);
    if allows_not(sort) {
        turned_node(alloc, types, UnaryOp::Not, sort, operand)
    } else {
        Err(Refusal::Because(broken(place, Rule::Logic)))
    }
}
