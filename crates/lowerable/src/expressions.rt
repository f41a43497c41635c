//! What expressions call, and what they have as values.

ghost use Rattle.std.specs.Prelude.{◌≡◌};
ghost use Rattle.typed_tree.specs.Expressions.{view_expr, view_place, view_elements, view_args, view_receiver};
ghost use Rattle.lowerable.specs.Farness.{is_linkable, is_linkable_place, is_linkable_receiver, are_linkable_elements, are_linkable, is_linkable_element, is_linkable_argument};

use crate::routines::{is_callable, is_far};
use typed_tree::{Arg, Expr, PlaceExpr, SetElement, Unit};

/// Whether all routines are far that an expression asks to be.
#[cycle(expressions)]
#[tactic(auto, using(crate::proofs::Trees::linkable_set, crate::proofs::Trees::linkable_call, crate::proofs::Trees::linkable_virtual, crate::proofs::Trees::linkable_through, crate::proofs::Trees::linkable_std, crate::proofs::Trees::linkable_make))]
pub fn is_linkable(units: &[Unit], unit: &Unit, expr: &Expr) -> bool
    ensures { result ≡ is_linkable units.now unit.now (view_expr expr.now) }
{
    match expr {
        Expr::Const { .. } => true,
        Expr::RoutineValue { routine, .. } => is_far(units, unit, *routine),
        Expr::Load { place, .. } => is_linkable_place(units, unit, place),
        Expr::Unary { operand, .. } | Expr::Convert { operand, .. } => is_linkable(
            units, unit, operand,
        ),
        Expr::Binary { left, right, .. } => {
            is_linkable(units, unit, left) && is_linkable(units, unit, right)
        }
        Expr::Range { operand, .. } => is_linkable(units, unit, operand),
        Expr::SetOf { elements, .. } => are_linkable_elements(units, unit, elements.as_slice()),
        Expr::Call {
            routine,
            own,
            args,
            ..
        } => {
            is_callable(units, unit, *routine)
                && is_linkable_receiver(units, unit, own)
                && are_linkable(units, unit, args.as_slice())
        }
        Expr::CallVirtual { own, args, .. } => {
            is_linkable_place(units, unit, own) && are_linkable(units, unit, args.as_slice())
        }
        Expr::CallThrough { place, args, .. } => {
            is_linkable_place(units, unit, place) && are_linkable(units, unit, args.as_slice())
        }
        Expr::Std { args, .. } => are_linkable(units, unit, args.as_slice()),
        Expr::Make { routine, args, .. } => {
            is_callable(units, unit, *routine) && are_linkable(units, unit, args.as_slice())
        }
    }
}

/// Whether all routines are far that a place asks to be.
#[cycle(expressions)]
pub fn is_linkable_place(units: &[Unit], unit: &Unit, place: &PlaceExpr) -> bool
    ensures { result ≡ is_linkable_place units.now unit.now (view_place place.now) }
{
    match place {
        PlaceExpr::Var(_) => true,
        PlaceExpr::Deref { pointer } => is_linkable(units, unit, pointer),
        PlaceExpr::Index { place, index, .. } => {
            is_linkable_place(units, unit, place) && is_linkable(units, unit, index)
        }
        PlaceExpr::FieldOf { place, .. } => is_linkable_place(units, unit, place),
    }
}

#[cycle(expressions)]
fn is_linkable_receiver(units: &[Unit], unit: &Unit, own: &Option<Box<PlaceExpr>>) -> bool
    ensures { result ≡ is_linkable_receiver units.now unit.now (view_receiver own.now) }
{
    match own {
        None => true,
        Some(place) => is_linkable_place(units, unit, place),
    }
}

#[cycle(expressions)]
fn is_linkable_element(units: &[Unit], unit: &Unit, element: &SetElement) -> bool
    ensures { result ≡ is_linkable_element units.now unit.now element.now }
{
    match element {
        SetElement::One(one) => is_linkable(units, unit, one),
        SetElement::Span(low, high) => {
            is_linkable(units, unit, low) && is_linkable(units, unit, high)
        }
    }
}

#[cycle(expressions)]
#[tactic(auto, using(crate::proofs::Trees::linkable_elements_step))]
fn are_linkable_elements(units: &[Unit], unit: &Unit, elements: &[SetElement]) -> bool
    ensures { result ≡ are_linkable_elements units.now unit.now (view_elements elements.now) }
{
    for element in elements {
        if !is_linkable_element(units, unit, element) {
            return false;
        }
    }
    true
}

#[cycle(expressions)]
fn is_linkable_argument(units: &[Unit], unit: &Unit, arg: &Arg) -> bool
    ensures { result ≡ is_linkable_argument units.now unit.now arg.now }
{
    match arg {
        Arg::Value(value) => is_linkable(units, unit, value),
        Arg::Place(place) => is_linkable_place(units, unit, place),
    }
}

/// Whether all routines are far that arguments ask to be.
#[cycle(expressions)]
#[tactic(auto, using(crate::proofs::Trees::linkable_arguments_step))]
pub fn are_linkable(units: &[Unit], unit: &Unit, args: &[Arg]) -> bool
    ensures { result ≡ are_linkable units.now unit.now (view_args args.now) }
{
    for arg in args {
        if !is_linkable_argument(units, unit, arg) {
            return false;
        }
    }
    true
}
