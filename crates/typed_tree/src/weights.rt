//! The code that expressions ask for.

ghost use Rattle.std.specs.Prelude.{◌≡◌};
ghost use Rattle.typed_tree.specs.Expressions.{view_expr, view_place, view_elements, view_args, view_receiver};
ghost use Rattle.typed_tree.specs.Slots.{capped};
ghost use Rattle.typed_tree.specs.Weights.{value_weight, weight, place_weight, receiver_weight, element_weight, elements_weight, argument_weight, arguments_weight};

use crate::{Arg, Expr, PlaceExpr, SetElement, Value};

fn weight_of_value(value: &Value) -> u64
    ensures { result ≡ capped (value_weight value.now) }
{
    match value {
        Value::Number(_) | Value::Nil => 24,
        Value::Chars(bytes) | Value::Elements(bytes) => (bytes.len() as u64).saturating_add(24),
    }
}

/// The weight of an expression with all its parts.
#[cycle(weights)]
pub(crate) fn weight_of_expr(expr: &Expr) -> u64
    ensures { result ≡ capped (weight (view_expr expr.now)) }
{
    match expr {
        Expr::Const { value, .. } => weight_of_value(value),
        Expr::RoutineValue { .. } => 24,
        Expr::Load { place, .. } => weight_of_place(place).saturating_add(32),
        Expr::Unary { operand, .. } | Expr::Convert { operand, .. } => weight_of_expr(
            operand,
        ).saturating_add(48),
        Expr::Binary { left, right, .. } => {
            weight_of_expr(left)
                .saturating_add(weight_of_expr(right))
                .saturating_add(96)
        }
        Expr::Range { operand, .. } => weight_of_expr(operand).saturating_add(64),
        Expr::SetOf { elements, .. } => weight_of_elements(elements.as_slice()).saturating_add(64),
        Expr::Call { own, args, .. } => {
            let args = weight_of_args(args.as_slice());
            weight_of_receiver(own)
                .saturating_add(args)
                .saturating_add(96)
        }
        Expr::CallVirtual { own, args, .. } => {
            let args = weight_of_args(args.as_slice());
            weight_of_place(own)
                .saturating_add(32)
                .saturating_add(args)
                .saturating_add(96)
        }
        Expr::CallThrough { place, args, .. } => {
            let args = weight_of_args(args.as_slice());
            weight_of_place(place)
                .saturating_add(32)
                .saturating_add(args)
                .saturating_add(96)
        }
        Expr::Std { args, .. } => weight_of_args(args.as_slice()).saturating_add(96),
        Expr::Make { args, .. } => weight_of_args(args.as_slice()).saturating_add(192),
    }
}

/// The weight of a place with all its parts.
#[cycle(weights)]
pub(crate) fn weight_of_place(place: &PlaceExpr) -> u64
    ensures { result ≡ capped (place_weight (view_place place.now)) }
{
    match place {
        PlaceExpr::Var(variable) => 24 + 8 * u64::from(variable.level.saturating_sub(1)),
        PlaceExpr::Deref { pointer } => weight_of_expr(pointer).saturating_add(32),
        PlaceExpr::Index { place, index, .. } => {
            weight_of_place(place)
                .saturating_add(weight_of_expr(index))
                .saturating_add(96)
        }
        PlaceExpr::FieldOf { place, .. } => weight_of_place(place).saturating_add(24),
    }
}

#[cycle(weights)]
fn weight_of_receiver(own: &Option<Box<PlaceExpr>>) -> u64
    ensures { result ≡ capped (receiver_weight (view_receiver own.now)) }
{
    match own {
        None => 0,
        Some(place) => weight_of_place(place).saturating_add(32),
    }
}

#[cycle(weights)]
fn weight_of_element(element: &SetElement) -> u64
    ensures { result ≡ capped (element_weight element.now) }
{
    match element {
        SetElement::One(one) => weight_of_expr(one).saturating_add(64),
        SetElement::Span(low, high) => {
            weight_of_expr(low)
                .saturating_add(weight_of_expr(high))
                .saturating_add(64)
        }
    }
}

#[cycle(weights)]
fn weight_of_elements(elements: &[SetElement]) -> u64
    ensures { result ≡ capped (elements_weight (view_elements elements.now)) }
{
    let mut sum = 0u64;
    for element in elements {
        sum = sum.saturating_add(weight_of_element(element));
    }
    sum
}

#[cycle(weights)]
fn weight_of_arg(arg: &Arg) -> u64
    ensures { result ≡ capped (argument_weight arg.now) }
{
    match arg {
        Arg::Value(value) => weight_of_expr(value).saturating_add(32),
        Arg::Place(place) => weight_of_place(place).saturating_add(32),
    }
}

/// The weight that arguments add to a call.
#[cycle(weights)]
pub(crate) fn weight_of_args(args: &[Arg]) -> u64
    ensures { result ≡ capped (arguments_weight (view_args args.now)) }
{
    let mut sum = 0u64;
    for arg in args {
        sum = sum.saturating_add(weight_of_arg(arg));
    }
    sum
}
