//! Arguments by their parameters, and calls.

ghost use Rattle.std.specs.Prelude.{◌≡◌, map};
ghost use Rattle.typed_tree.specs.Expressions.{Load, view_expr, view_place};
ghost use Rattle.typing_rules.specs.Judgements.{Gives};
ghost use Rattle.call_rules.specs.Given.{Handed, view_handed, is_variable_for, by_value, by_place, handed, given, called, performed};

use std::alloc::Global;
use type_layout::{Header, Param, Place, RoutineId, TypeId, Types};
use typed_tree::{Arg, Expr, PlaceExpr};
use typing_rules::{
    Refusal, Rule, assigned_by, broken, definition, is_assignable, is_line, sort_of, sort_of_type,
    stored_of_type, type_of,
};

// A variable of the very type, or of a descendant of an object type.
fn is_variable_for(types: &Types, ty: TypeId, own: TypeId) -> bool
    ensures { result ≡ is_variable_for types.now.types ty own }
{
    own.0 == ty.0 || is_line(types, own, ty)
}

fn by_value(
    alloc: Global,
    types: &Types,
    place: Place,
    checked: bool,
    ty: TypeId,
    value: Expr,
) -> Result<Arg, Refusal>
    ensures { Gives view_handed result (by_value types.now.types place checked ty (view_expr value)).run }
{
    let own = type_of(&value);
    if !is_assignable(
        types,
        sort_of_type(types, ty),
        sort_of(types, &value),
        ty,
        own,
    ) {
        return Err(Refusal::Because(broken(place, Rule::Called)));
    }
    let stored = stored_of_type(types, own);
    let value = assigned_by(alloc, ty, definition(types, ty), stored, checked, value)?;
    Ok(Arg::Value(value))
}

// A variable of its own type, where one for a parameter's type is due.
fn variable(
    types: &Types,
    place: Place,
    ty: TypeId,
    own: TypeId,
    at: PlaceExpr,
) -> Result<Arg, Refusal>
    ensures { Gives view_handed result (by_place types.now.types place ty (Load own (view_place at))).run }
{
    if is_variable_for(types, ty, own) {
        Ok(Arg::Place(at))
    } else {
        Err(Refusal::Because(broken(place, Rule::Called)))
    }
}

fn by_place(types: &Types, place: Place, ty: TypeId, value: Expr) -> Result<Arg, Refusal>
    ensures { Gives view_handed result (by_place types.now.types place ty (view_expr value)).run }
{
    match value {
        Expr::Load { ty: own, place: at } => {
            variable(types, place, ty, own, Box::into_inner(at))
        }
        _ => Err(Refusal::Because(broken(place, Rule::Called))),
    }
}

// An argument by its parameter.
#[tactic(auto, unfolding(crate::specs::Given::handed))]
fn handed(
    alloc: Global,
    types: &Types,
    place: Place,
    checked: bool,
    param: &Param,
    value: Expr,
) -> Result<Arg, Refusal>
    ensures { Gives view_handed result (handed types.now.types place checked param.now (view_expr value)).run }
{
    if param.by_ref {
        by_place(types, place, param.ty, value)
    } else {
        by_value(alloc, types, place, checked, param.ty, value)
    }
}

/// An argument for each parameter, at the place of the call. With `checked`, values lie within the bounds of their
/// parameters.
pub fn given(
    alloc: Global,
    types: &Types,
    place: Place,
    checked: bool,
    params: &[Param],
    values: Vec<Expr>,
) -> Result<Vec<Arg>, Refusal>
    ensures { Gives (λ args. map view_handed args.items) result (given types.now.types place checked params.now (map view_expr values.items)).run }
{
    let mut values = values.into_iter();
    let mut args = Vec::new(alloc);
    for param in params {
        match values.next() {
            Some(value) => {
                let arg = handed(alloc, types, place, checked, param, value)?;
                args.push(arg)?;
            }
            None => return Err(Refusal::Because(broken(place, Rule::Called))),
        }
    }
    match values.next() {
        None => Ok(args),
        Some(_) => Err(Refusal::Because(broken(place, Rule::Called))),
    }
}

/// The node of a function's call at a place.
#[tactic(auto, unfolding(crate::specs::Given::called))]
pub fn called(
    alloc: Global,
    types: &Types,
    place: Place,
    checked: bool,
    routine: RoutineId,
    header: &Header,
    values: Vec<Expr>,
) -> Result<Expr, Refusal>
    ensures { Gives view_expr result (called types.now.types place checked routine header.now (map view_expr values.items)).run }
{
    match header.result {
        None => Err(Refusal::Because(broken(place, Rule::Stands))),
        Some(ty) => {
            let args = given(
                alloc,
                types,
                place,
                checked,
                header.params.as_slice(),
                values,
            )?;
            Ok(Expr::Call {
                ty: Some(ty),
                routine,
                own: None,
                args,
            })
        }
    }
}

/// The node of a procedure's call at a place.
#[tactic(auto, unfolding(crate::specs::Given::performed))]
pub fn performed(
    alloc: Global,
    types: &Types,
    place: Place,
    checked: bool,
    routine: RoutineId,
    header: &Header,
    values: Vec<Expr>,
) -> Result<Expr, Refusal>
    ensures { Gives view_expr result (performed types.now.types place checked routine header.now (map view_expr values.items)).run }
{
    match header.result {
        Some(_) => Err(Refusal::Because(broken(place, Rule::Stands))),
        None => {
            let args = given(
                alloc,
                types,
                place,
                checked,
                header.params.as_slice(),
                values,
            )?;
            Ok(Expr::Call {
                ty: None,
                routine,
                own: None,
                args,
            })
        }
    }
}
