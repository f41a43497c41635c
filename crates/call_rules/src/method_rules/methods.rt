//! Methods by their names.

ghost use Rattle.std.specs.Prelude.{◌≡◌, option_copied, position};
ghost use Rattle.type_layout.specs.Words.{same_bytes};
ghost use Rattle.scopes.specs.Members.{narrow};
ghost use Rattle.typed_tree.specs.Expressions.{Load, view_expr, view_place};
ghost use Rattle.typing_rules.specs.Judgements.{Gives};
ghost use Rattle.call_rules.specs.method_rules.Methods.{view_bound, callee_itself, routine_itself, method_by, method_in, unit_at, routine_in, routine_named, callee_of, bound_by, bound, inherited_by, inherited};

use crate::method_rules::slots::{methods_of, slot_of};
use scopes::{Member, Scope, member_of};
use std::alloc::Global;
use type_layout::{Header, Method, Name, Place, RoutineId, TypeId, Types};
use typed_tree::{Expr, PlaceExpr};
use typing_rules::{Refusal, Rule, broken, definition, is_line};

/// What a call runs: a routine, or the one in a slot of the object's class.
#[derive(Clone, Copy, Debug, PartialEq, Eq)]
pub enum Callee {
    Routine(RoutineId),
    Slot(u32),
}

/// A method with the object that it is called on.
#[derive(Drop)]
pub struct BoundMethod<'a> {
    pub header: &'a Header,
    pub callee: Callee,
    pub own: PlaceExpr,
}

fn method_by(types: &Types, member: Option<Member>) -> Option<&Method>
    ensures { option_copied result ≡ method_by types.now.types member }
{
    match member {
        Some(one) if one.method => methods_of(definition(types, one.class)).get(
            one.number as usize,
        ),
        _ => None,
    }
}

/// The method that has this name in the line of a class: the nearest type's.
#[tactic(auto, unfolding(crate::specs::method_rules::Methods::method_in))]
pub fn method_in<'a>(types: &'a Types, class: TypeId, name: &Name) -> Option<&'a Method>
    ensures { option_copied result ≡ method_in types.now.types class name.now }
{
    method_by(types, member_of(types, Some(class), name))
}

fn narrow(number: usize) -> u32
    ensures { result ≡ narrow number }
{
    u32::try_from(number).unwrap_or(u32::MAX)
}

fn unit_place(units: &[Name], name: &Name) -> Option<usize>
    ensures { result ≡ position (same_bytes name.now) units.now }
{
    units.iter().position(|unit| *name == *unit)
}

fn unit_at(units: &[Name], name: Option<&Name>) -> Option<u32>
    ensures { result ≡ unit_at units.now (option_copied name.entry) }
{
    match name {
        None => None,
        Some(name) => unit_place(units, name).map(narrow),
    }
}

/// The routine of a method as a node names it, if the scope names its unit.
pub fn routine_in(scope: &Scope, routine: RoutineId) -> Option<RoutineId>
    ensures { result ≡ routine_in scope.now routine }
{
    let name = scope.types().units().get(routine.unit as usize);
    let unit = unit_at(scope.units(), name)?;
    Some(RoutineId {
        unit,
        number: routine.number,
    })
}

/// The routine of a method, whose unit is a place among the units of the scope.
pub fn routine_named(scope: &Scope, place: Place, method: &Method) -> Result<RoutineId, Refusal>
    ensures { Gives routine_itself result (routine_named scope.now place method.now).run }
{
    match routine_in(scope, method.routine) {
        None => Err(Refusal::Because(broken(place, Rule::Selected))),
        Some(routine) => Ok(routine),
    }
}

/// What is called where a method of a class is selected by its name.
pub fn callee_of(
    alloc: Global,
    scope: &Scope,
    place: Place,
    class: TypeId,
    name: &Name,
    method: &Method,
) -> Result<Callee, Refusal>
    ensures { Gives callee_itself result (callee_of scope.now place class name.now method.now).run }
{
    if !method.is_virtual {
        return Ok(Callee::Routine(routine_named(scope, place, method)?));
    }
    let slot = slot_of(alloc, scope.types(), class, name)?;
    match slot {
        Some(slot) => Ok(Callee::Slot(slot)),
        None => Err(Refusal::Because(broken(place, Rule::Selected))),
    }
}

fn bound_by<'a>(
    alloc: Global,
    scope: &Scope,
    place: Place,
    class: TypeId,
    at: PlaceExpr,
    name: &Name,
    method: Option<&'a Method>,
) -> Result<BoundMethod<'a>, Refusal>
    ensures { Gives view_bound result (bound_by scope.now place class (view_place at) name.now (option_copied method.entry)).run }
{
    match method {
        None => Err(Refusal::Because(broken(place, Rule::Selected))),
        Some(method) => {
            let callee = callee_of(alloc, scope, place, class, name, method)?;
            Ok(BoundMethod {
                header: &method.header,
                callee,
                own: at,
            })
        }
    }
}

/// The method of this name that is selected of an object at a place.
#[tactic(auto, unfolding(crate::specs::method_rules::Methods::bound))]
pub fn bound<'a>(
    alloc: Global,
    scope: &'a Scope,
    place: Place,
    object: Expr,
    name: &Name,
) -> Result<BoundMethod<'a>, Refusal>
    ensures { Gives view_bound result (bound scope.now place (view_expr object) name.now).run }
{
    match object {
        Expr::Load { ty, place: at } => {
            let at = Box::into_inner(at);
            bound_by(
                alloc,
                scope,
                place,
                ty,
                at,
                name,
                method_in(scope.types(), ty, name),
            )
        }
        _ => Err(Refusal::Because(broken(place, Rule::Selected))),
    }
}

fn inherited_by<'a>(
    scope: &Scope,
    place: Place,
    at: PlaceExpr,
    method: Option<&'a Method>,
) -> Result<BoundMethod<'a>, Refusal>
    ensures { Gives view_bound result (inherited_by scope.now place (view_place at) (option_copied method.entry)).run }
{
    match method {
        None => Err(Refusal::Because(broken(place, Rule::Selected))),
        Some(method) => Ok(BoundMethod {
            header: &method.header,
            callee: Callee::Routine(routine_named(scope, place, method)?),
            own: at,
        }),
    }
}

/// The method of this name that is selected of the name of a type, which stands `here`, inside a method of a class, on Self.
#[tactic(auto, unfolding(crate::specs::method_rules::Methods::inherited))]
pub fn inherited<'a>(
    scope: &'a Scope,
    here: Place,
    place: Place,
    class: TypeId,
    own: PlaceExpr,
    ancestor: TypeId,
    name: &Name,
) -> Result<BoundMethod<'a>, Refusal>
    ensures { Gives view_bound result (inherited scope.now here place class (view_place own) ancestor name.now).run }
{
    let types = scope.types();
    if is_line(types, class, ancestor) {
        inherited_by(scope, place, own, method_in(types, ancestor, name))
    } else {
        Err(Refusal::Because(broken(here, Rule::Stands)))
    }
}
