//! Calls through variables that hold routines.

ghost use Rattle.std.specs.Prelude.{Ok, map};
ghost use Rattle.typed_tree.specs.Expressions.{Load, CallThrough, view_expr, view_place};
ghost use Rattle.typing_rules.specs.Judgements.{Gives};
ghost use Rattle.call_rules.specs.Given.{view_handed, arguments_of};
ghost use Rattle.call_rules.specs.procedural_rules.Through.{view_held, held_of, held_routine, through, called_through, performed_through, settled_of, settled};

use crate::given;
use std::alloc::Global;
use type_layout::{Header, Place, TypeDef, TypeId, Types};
use typed_tree::{Arg, Expr, PlaceExpr};
use typing_rules::{Refusal, Rule, broken, definition};

/// Where a routine is held, and the header of what the place may hold.
#[derive(Drop)]
pub struct HeldRoutine<'a> {
    pub header: &'a Header,
    pub place: PlaceExpr,
}

fn held_at<'a>(
    types: &'a Types,
    place: Place,
    ty: TypeId,
    at: PlaceExpr,
) -> Result<HeldRoutine<'a>, Refusal>
    ensures { Gives view_held result (held_of types.now.types place (Load ty (view_place at))).run }
{
    match definition(types, ty) {
        Some(TypeDef::Procedural { header }) => Ok(HeldRoutine { header, place: at }),
        _ => Err(Refusal::Because(broken(place, Rule::Stands))),
    }
}

/// What stands before the arguments of a call at a place: a variable of a procedural type.
#[tactic(auto, unfolding(crate::specs::procedural_rules::Through::held_routine))]
pub fn held_routine<'a>(
    types: &'a Types,
    place: Place,
    value: Expr,
) -> Result<HeldRoutine<'a>, Refusal>
    ensures { Gives view_held result (held_routine types.now.types place (view_expr value)).run }
{
    match value {
        Expr::Load { ty, place: at } => held_at(types, place, ty, Box::into_inner(at)),
        _ => Err(Refusal::Because(broken(place, Rule::Stands))),
    }
}

// The node of a call through a place, from its arguments.
fn through_node(
    alloc: Global,
    ty: Option<TypeId>,
    at: PlaceExpr,
    args: Vec<Arg>,
) -> Result<Expr, Refusal>
    ensures { Gives view_expr result (Ok (CallThrough ty (view_place at) (arguments_of (map view_handed args.items)))) }
{
    let place = Box::new(alloc, at)?;
    Ok(Expr::CallThrough { ty, place, args })
}

fn through(
    alloc: Global,
    types: &Types,
    place: Place,
    checked: bool,
    one: HeldRoutine<'_>,
    ty: Option<TypeId>,
    values: Vec<Expr>,
) -> Result<Expr, Refusal>
    ensures { Gives view_expr result (through types.now.types place checked (view_held one.entry) ty (map view_expr values.items)).run }
{
    let HeldRoutine { header, place: at } = one;
    let args = given(
        alloc,
        types,
        place,
        checked,
        header.params.as_slice(),
        values,
    )?;
    through_node(alloc, ty, at, args)
}

/// The node of the call of a held function at a place. With `checked`, values that are handed over lie within the bounds of
/// their parameters.
#[tactic(auto, unfolding(crate::specs::procedural_rules::Through::called_through))]
pub fn called_through(
    alloc: Global,
    types: &Types,
    place: Place,
    checked: bool,
    one: HeldRoutine<'_>,
    values: Vec<Expr>,
) -> Result<Expr, Refusal>
    ensures { Gives view_expr result (called_through types.now.types place checked (view_held one.entry) (map view_expr values.items)).run }
{
    match one.header.result {
        None => Err(Refusal::Because(broken(place, Rule::Stands))),
        Some(ty) => through(alloc, types, place, checked, one, Some(ty), values),
    }
}

/// The node of the call of a held procedure at a place, as a statement.
#[tactic(auto, unfolding(crate::specs::procedural_rules::Through::performed_through))]
pub fn performed_through(
    alloc: Global,
    types: &Types,
    place: Place,
    checked: bool,
    one: HeldRoutine<'_>,
    values: Vec<Expr>,
) -> Result<Expr, Refusal>
    ensures { Gives view_expr result (performed_through types.now.types place checked (view_held one.entry) (map view_expr values.items)).run }
{
    match one.header.result {
        Some(_) => Err(Refusal::Because(broken(place, Rule::Stands))),
        None => through(alloc, types, place, checked, one, None, values),
    }
}

// What a variable of a type is for its value.
fn settled_at(
    alloc: Global,
    types: &Types,
    place: Place,
    ty: TypeId,
    at: Box<PlaceExpr>,
) -> Result<Expr, Refusal>
    ensures { Gives view_expr result (settled_of types.now.types place (Load ty (view_place at.value))).run }
{
    match definition(types, ty) {
        Some(TypeDef::Procedural { header }) => {
            let one = HeldRoutine {
                header,
                place: Box::into_inner(at),
            };
            called_through(alloc, types, place, false, one, Vec::new(alloc))
        }
        _ => Ok(Expr::Load { ty, place: at }),
    }
}

/// What stands in an expression at a place: a variable of a procedural type is a call, without arguments, of what it holds.
#[tactic(auto, unfolding(crate::specs::procedural_rules::Through::settled))]
pub fn settled(alloc: Global, types: &Types, place: Place, value: Expr) -> Result<Expr, Refusal>
    ensures { Gives view_expr result (settled types.now.types place (view_expr value)).run }
{
    match value {
        Expr::Load { ty, place: at } => settled_at(alloc, types, place, ty, at),
        _ => Ok(value),
    }
}
