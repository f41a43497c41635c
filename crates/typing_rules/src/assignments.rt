//! Values that are assigned.

ghost use Rattle.std.specs.Prelude.{◌≡◌, Ok, option_copied};
ghost use Rattle.typed_tree.specs.Expressions.{view_expr};
ghost use Rattle.typing_rules.specs.Judgements.{Gives};
ghost use Rattle.typing_rules.specs.Assignments.{is_string, is_like, is_assignable, is_procedural, ranged, constant_in, tested, stored_in, assigned_by, assigned};

use crate::faults::{Refusal, Rule, broken};
use crate::joins::{is_below, is_nil_for, is_of_type};
use crate::plans::{are_of_one_host, are_sets, is_text};
use crate::sorts::{Sort, definition, sort_of, sort_of_type, type_of};
use crate::wanting::{as_pointer, as_text, converted, stored_of_type};
use std::alloc::Global;
use type_layout::{Host, Place, TypeDef, TypeId, Types, storage_of};
use typed_tree::{Expr, Value};

/// Whether it is a string.
pub fn is_string(sort: Sort) -> bool
    ensures { result ≡ is_string sort }
{
    matches!(sort, Sort::Text)
}

// An ordinal of the target's host, a text to a string, a set of its host, or nil to a pointer.
fn is_like(target: Sort, sort: Sort) -> bool
    ensures { result ≡ is_like target sort }
{
    are_of_one_host(target, sort)
        || (is_string(target) && is_text(sort)
            || (are_sets(target, sort) || is_nil_for(target, sort)))
}

/// Whether a value may be assigned to a target: an ordinal of its host, a text to a string, a set of its host, nil to a pointer,
/// a value of the same type, a descendant object, or a pointer to one.
pub fn is_assignable(
    types: &Types,
    target: Sort,
    sort: Sort,
    ty: TypeId,
    own: Option<TypeId>,
) -> bool
    ensures { result ≡ is_assignable types.now.types target sort ty own }
{
    is_like(target, sort) || (is_of_type(ty, own) || is_below(types, ty, own))
}

/// Whether it is a procedural type, whose variables hold routines.
pub fn is_procedural(one: Option<&TypeDef>) -> bool
    ensures { result ≡ is_procedural (option_copied one.entry) }
{
    matches!(one, Some(TypeDef::Procedural { .. }))
}

/// A value that is tested against bounds, where tests are asked for.
pub fn ranged(
    alloc: Global,
    checked: bool,
    low: i32,
    high: i32,
    expr: Expr,
) -> Result<Expr, Refusal>
    ensures { Gives view_expr result (Ok (ranged checked low high (view_expr expr))) }
{
    if !checked {
        return Ok(expr);
    }
    match type_of(&expr) {
        Some(ty) => Ok(Expr::Range {
            ty,
            operand: Box::new(alloc, expr)?,
            low,
            high,
        }),
        None => Ok(expr),
    }
}

// A test inside a conversion.
#[tactic(auto, unfolding(crate::specs::Assignments::tested))]
fn tested(
    alloc: Global,
    ty: TypeId,
    wanted: Host,
    low: i32,
    high: i32,
    stored: Option<Host>,
    checked: bool,
    expr: Expr,
) -> Result<Expr, Refusal>
    ensures { Gives view_expr result (Ok (tested ty wanted low high stored checked (view_expr expr))) }
{
    let expr = ranged(alloc, checked, low, high, expr)?;
    converted(alloc, ty, wanted, stored, expr)
}

// A constant of a type, tested.
#[tactic(auto, unfolding(crate::specs::Assignments::constant_in))]
fn constant_in(
    alloc: Global,
    ty: TypeId,
    low: i32,
    high: i32,
    checked: bool,
    number: i32,
) -> Result<Expr, Refusal>
    ensures { Gives view_expr result (Ok (constant_in ty low high checked number)) }
{
    let constant = Expr::Const {
        ty,
        value: Value::Number(number),
    };
    ranged(alloc, checked, low, high, constant)
}

// An ordinal in a type that is stored so, within bounds that are tested where that is asked for.
fn stored_in(
    alloc: Global,
    ty: TypeId,
    wanted: Host,
    low: i32,
    high: i32,
    stored: Option<Host>,
    checked: bool,
    expr: Expr,
) -> Result<Expr, Refusal>
    ensures { Gives view_expr result (Ok (stored_in ty wanted low high stored checked (view_expr expr))) }
{
    match expr {
        Expr::Const {
            value: Value::Number(number),
            ..
        } if wanted.holds(number, number) => constant_in(alloc, ty, low, high, checked, number),
        _ => tested(alloc, ty, wanted, low, high, stored, checked, expr),
    }
}

/// The node of a value that is assigned to a target of a type with this definition.
pub fn assigned_by(
    alloc: Global,
    ty: TypeId,
    one: Option<&TypeDef>,
    stored: Option<Host>,
    checked: bool,
    expr: Expr,
) -> Result<Expr, Refusal>
    ensures { Gives view_expr result (Ok (assigned_by ty (option_copied one.entry) stored checked (view_expr expr))) }
{
    match one {
        Some(TypeDef::Ordinal { host, low, high }) => stored_in(
            alloc,
            ty,
            storage_of(*host, *low, *high),
            *low,
            *high,
            stored,
            checked,
            expr,
        ),
        Some(TypeDef::Str { .. }) => as_text(alloc, stored, expr),
        Some(TypeDef::PointerTo { .. }) => Ok(as_pointer(ty, expr)),
        _ => Ok(expr),
    }
}

/// The node of a value that is assigned, at a place, to a target of a type. With `checked` it must lie within the bounds of
/// an ordinal type.
#[tactic(auto, unfolding(crate::specs::Assignments::assigned))]
pub fn assigned(
    alloc: Global,
    types: &Types,
    place: Place,
    ty: TypeId,
    checked: bool,
    expr: Expr,
) -> Result<Expr, Refusal>
    ensures { Gives view_expr result (assigned types.now.types place ty checked (view_expr expr)).run }
{
    let own = type_of(&expr);
    if !is_assignable(
        types,
        sort_of_type(types, ty),
        sort_of(types, &expr),
        ty,
        own,
    ) {
        return Err(Refusal::Because(broken(place, Rule::Assigned)));
    }
    let stored = stored_of_type(types, own);
    assigned_by(alloc, ty, definition(types, ty), stored, checked, expr)
}
