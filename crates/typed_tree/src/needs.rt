//! The evaluation stack that expressions use.

ghost use Rattle.std.specs.Prelude.{◌≡◌, ◌≤◌};
ghost use Rattle.typed_tree.specs.Expressions.{view_expr, view_place, view_elements, view_args, view_receiver};
ghost use Rattle.typed_tree.specs.Slots.{capped, slot_of};
ghost use Rattle.typed_tree.specs.Needs.{need, place_need, receiver_need, receiver_slot, elements_need, element_need, argument_need, argument_slot, arguments_need};

use crate::slots::{is_var, slot_of, slot_of_constant, slot_of_result, slot_of_type};
use crate::{Arg, Expr, PlaceExpr, SetElement};
use type_layout::Types;

/// What an expression uses above the slots that are taken already.
#[cycle(needs)]
pub(crate) fn need_of_expr(types: &Types, expr: &Expr) -> u64
    ensures { result ≡ capped (need types.now.types (view_expr expr.now)) }
{
    match expr {
        Expr::Const { ty, value } => slot_of_constant(types, *ty, value),
        Expr::RoutineValue { .. } => 4,
        Expr::Load { ty, place } if is_var(place) => slot_of_type(types, *ty),
        Expr::Load { ty, place } => need_of_place(types, place).max(slot_of_type(types, *ty)),
        Expr::Unary { ty, operand, .. } | Expr::Convert { ty, operand } => {
            need_of_expr(types, operand).max(slot_of_type(types, *ty))
        }
        Expr::Binary {
            ty,
            left,
            right,
            ..
        } => need_of_expr(types, left)
            .max(slot_of(types, left).saturating_add(need_of_expr(types, right)))
            .max(slot_of_type(types, *ty)),
        Expr::Range { operand, .. } => need_of_expr(types, operand),
        Expr::SetOf { elements, .. } => need_of_elements(types, elements.as_slice()).saturating_add(
            32,
        ),
        Expr::Call { ty, own, args, .. } => {
            let above = need_of_args(
                types,
                args.as_slice(),
                slot_of_receiver(own),
                slot_of_result(types, *ty),
            );
            need_of_receiver(types, own).max(above)
        }
        Expr::CallVirtual { ty, own, args, .. } => {
            need_of_place(types, own).max(need_of_args(
                types,
                args.as_slice(),
                4,
                slot_of_result(types, *ty),
            ))
        }
        Expr::CallThrough { ty, place, args } => {
            need_of_place(types, place).max(need_of_args(
                types,
                args.as_slice(),
                4,
                slot_of_result(types, *ty),
            ))
        }
        Expr::Std { ty, args, .. } => need_of_args(
            types,
            args.as_slice(),
            0,
            slot_of_result(types, *ty),
        ),
        Expr::Make { args, .. } => need_of_args(types, args.as_slice(), 4, 0),
    }
}

/// What the evaluation of a place uses.
#[cycle(needs)]
pub(crate) fn need_of_place(types: &Types, place: &PlaceExpr) -> u64
    ensures { result ≡ capped (place_need types.now.types (view_place place.now)) }
{
    match place {
        PlaceExpr::Var(_) => 4,
        PlaceExpr::Deref { pointer } => need_of_expr(types, pointer).max(4),
        PlaceExpr::Index { place, index, .. } => {
            need_of_place(types, place).max(need_of_expr(types, index).saturating_add(4))
        }
        PlaceExpr::FieldOf { place, .. } => need_of_place(types, place),
    }
}

fn slot_of_receiver(own: &Option<Box<PlaceExpr>>) -> u64
    ensures { result ≡ receiver_slot (view_receiver own.now) }
{
    match own {
        None => 0,
        Some(_) => 4,
    }
}

#[cycle(needs)]
fn need_of_receiver(types: &Types, own: &Option<Box<PlaceExpr>>) -> u64
    ensures { result ≡ capped (receiver_need types.now.types (view_receiver own.now)) }
{
    match own {
        None => 0,
        Some(place) => need_of_place(types, place),
    }
}

#[cycle(needs)]
fn need_of_element(types: &Types, element: &SetElement) -> u64
    ensures { result ≡ capped (element_need types.now.types element.now) }
{
    match element {
        SetElement::One(one) => need_of_expr(types, one),
        SetElement::Span(low, high) => {
            need_of_expr(types, low).max(slot_of(types, low).saturating_add(need_of_expr(
                types, high,
            )))
        }
    }
}

#[cycle(needs)]
fn need_of_elements(types: &Types, elements: &[SetElement]) -> u64
    ensures { result ≡ capped (elements_need types.now.types (view_elements elements.now)) }
{
    let mut most = 0u64;
    for element in elements {
        most = most.max(need_of_element(types, element));
    }
    most
}

fn slot_of_arg(types: &Types, arg: &Arg) -> u64
    ensures value { result ≡ argument_slot types.now.types arg.now }
    ensures bound { result ≤ 256 }
{
    match arg {
        Arg::Value(value) => slot_of(types, value),
        Arg::Place(_) => 4,
    }
}

#[cycle(needs)]
fn need_of_arg(types: &Types, arg: &Arg) -> u64
    ensures { result ≡ capped (argument_need types.now.types arg.now) }
{
    match arg {
        Arg::Value(value) => need_of_expr(types, value),
        Arg::Place(place) => need_of_place(types, place),
    }
}

/// What arguments use above `before` slots, with a result above them all.
#[cycle(needs)]
pub(crate) fn need_of_args(types: &Types, args: &[Arg], before: u64, result_slot: u64) -> u64
    ensures { result ≡ capped (arguments_need types.now.types before result_slot (view_args args.now)) }
{
    let mut slots = before;
    let mut most = 0u64;
    for arg in args {
        most = most.max(slots.saturating_add(need_of_arg(types, arg)));
        slots = slots.saturating_add(slot_of_arg(types, arg));
    }
    most.max(slots.saturating_add(result_slot))
}
