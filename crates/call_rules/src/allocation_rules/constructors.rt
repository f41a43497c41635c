//! New with a constructor.

ghost use Rattle.std.specs.Prelude.{◌≡◌, Ok, Some, map, option_copied};
ghost use Rattle.typed_tree.specs.Expressions.{NoArguments, Std, Make, view_expr};
ghost use Rattle.typed_tree.specs.Standard as routine;
ghost use Rattle.typing_rules.specs.Judgements.{Gives};
ghost use Rattle.typing_rules.specs.Selectors.{target_in};
ghost use Rattle.call_rules.specs.Given.{view_handed, arguments_of};
ghost use Rattle.call_rules.specs.allocation_rules.Allocations.{blank, is_constructor, of_kind, member_at, view_maker, constructor_by, constructor, made, newly_made};

use crate::given;
use crate::method_rules::{method_in, routine_named};
use scopes::Scope;
use std::alloc::Global;
use type_layout::{Header, Kind, Method, Name, Place, RoutineId, TypeDef, TypeId, Types};
use typed_tree::standard::NEW;
use typed_tree::{Arg, Expr};
use typing_rules::{Refusal, Rule, broken, definition};

/// A constructor that is called on a new block.
#[derive(Clone, Copy, Debug)]
pub struct BoundConstructor<'a> {
    pub header: &'a Header,
    pub routine: RoutineId,
}

fn constructor_among(method: Option<&Method>) -> Option<&Method>
    ensures { option_copied result ≡ of_kind is_constructor (option_copied method.entry) }
{
    match method {
        Some(method) if matches!(method.header.kind, Kind::Constructor) => Some(method),
        _ => None,
    }
}

/// The type that a type points to, if it is a pointer type.
pub(crate) fn target_in(types: &Types, ty: Option<TypeId>) -> Option<TypeId>
    ensures { result ≡ target_in types.now.types ty }
{
    match definition(types, ty?) {
        Some(TypeDef::PointerTo { target }) => Some(*target),
        _ => None,
    }
}

fn blank_node(alloc: Global, ty: TypeId) -> Expr
    ensures { view_expr result ≡ Std (Some ty) routine.new NoArguments }
{
    let args = Vec::new(alloc);
    Expr::Std {
        ty: Some(ty),
        number: NEW,
        args,
    }
}

/// The node of a new block for what a pointer type points to, without a constructor, at the place of the call.
#[tactic(auto, unfolding(crate::specs::allocation_rules::Allocations::blank))]
pub fn blank(alloc: Global, types: &Types, place: Place, ty: TypeId) -> Result<Expr, Refusal>
    ensures { Gives view_expr result (blank types.now.types place ty).run }
{
    match definition(types, ty) {
        Some(TypeDef::PointerTo { .. }) => Ok(blank_node(alloc, ty)),
        _ => Err(Refusal::Because(broken(place, Rule::Called))),
    }
}

// The constructor of this name of a class.
fn constructor_in<'a>(types: &'a Types, class: Option<TypeId>, name: &Name) -> Option<&'a Method>
    ensures { option_copied result ≡ member_at is_constructor types.now.types class name.now }
{
    match class {
        Some(class) => constructor_among(method_in(types, class, name)),
        None => None,
    }
}

fn constructor_by<'a>(
    scope: &Scope,
    place: Place,
    method: Option<&'a Method>,
) -> Result<BoundConstructor<'a>, Refusal>
    ensures { Gives view_maker result (constructor_by scope.now place (option_copied method.entry)).run }
{
    match method {
        None => Err(Refusal::Because(broken(place, Rule::Allocating))),
        Some(method) => {
            let routine = routine_named(scope, place, method)?;
            Ok(BoundConstructor {
                header: &method.header,
                routine,
            })
        }
    }
}

/// The constructor of this name of what a pointer type points to, for a call at a place.
#[tactic(auto, unfolding(crate::specs::allocation_rules::Allocations::constructor))]
pub fn constructor<'a>(
    scope: &'a Scope,
    place: Place,
    ty: TypeId,
    name: &Name,
) -> Result<BoundConstructor<'a>, Refusal>
    ensures { Gives view_maker result (constructor scope.now place ty name.now).run }
{
    let types = scope.types();
    let class = target_in(types, Some(ty));
    constructor_by(scope, place, constructor_in(types, class, name))
}

fn make_node(ty: TypeId, routine: RoutineId, args: Vec<Arg>) -> Expr
    ensures { view_expr result ≡ Make ty routine (arguments_of (map view_handed args.items)) }
{
    Expr::Make { ty, routine, args }
}

/// The node of a new block for what a pointer type points to, on which a constructor is called, at the place of the call. With
/// `checked`, values that are handed over lie within the bounds of their parameters.
#[tactic(auto, unfolding(crate::specs::allocation_rules::Allocations::made))]
pub fn made(
    alloc: Global,
    types: &Types,
    place: Place,
    checked: bool,
    ty: TypeId,
    one: BoundConstructor<'_>,
    values: Vec<Expr>,
) -> Result<Expr, Refusal>
    ensures { Gives view_expr result (made types.now.types place checked ty (view_maker one.entry) (map view_expr values.items)).run }
{
    let params = one.header.params.as_slice();
    let args = given(alloc, types, place, checked, params, values)?;
    Ok(make_node(ty, one.routine, args))
}

/// What stands behind the type in a New at a place: the node of a new block with a constructor.
pub fn newly_made(place: Place, value: Expr) -> Result<Expr, Refusal>
    ensures { Gives view_expr result (newly_made place (view_expr value)).run }
{
    match value {
        Expr::Make { .. } => Ok(value),
        _ => Err(Refusal::Because(broken(place, Rule::Allocating))),
    }
}
