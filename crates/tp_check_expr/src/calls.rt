//! What may stand before arguments, and calls and conversions.

ghost use Rattle.std.specs.Prelude.{◌≡◌, map, option_map};
ghost use Rattle.typed_tree.specs.Expressions.{view_expr};
ghost use Rattle.typing_rules.specs.Judgements.{Gives};
ghost use Rattle.syntax_tree.specs.expression_tree.Trees.{view_designator};
ghost use Rattle.tp_check_expr.specs.Calls.{view_callable, entered_by, member_callable, callable_entry, callable_member, callable_name, params_of_entry, params_of, special_of, target_called, constructor_at, called_with};

use crate::members::is_method_of;
use crate::names::variable;
use crate::owners::owner_in;
use call_rules::allocation_rules::{BoundConstructor, constructor, made};
use call_rules::method_rules::{BoundMethod, bound, called_on};
use call_rules::procedural_rules::{HeldRoutine, called_through, held_routine};
use call_rules::standard_rules::{is_special, standard};
use call_rules::{called, cast};
use pascal_grammar::Position;
use scopes::{Entry, Found, Scope};
use std::alloc::Global;
use syntax_tree::Designator;
use tp_lexer::left_out_names::feature_of;
use type_layout::{Name, Param, Place, TypeId, Types};
use typed_tree::{Expr, PlaceExpr};
use typing_rules::{Refusal, Rule, broken, loaded, selected, undeclared};

/// What stands before arguments: what is declared under a name; a method with its object; a variable that holds a routine; or a
/// constructor for a new block, behind a pointer type in a New.
#[derive(Drop)]
pub enum CallTarget<'a> {
    Declared(&'a Entry),
    Method(BoundMethod<'a>),
    Through(HeldRoutine<'a>),
    Making(TypeId, BoundConstructor<'a>),
}

/// A variable that holds a routine, in a call at a place.
pub(crate) fn entered_by<'a>(
    types: &'a Types,
    place: Place,
    variable: Expr,
) -> Result<CallTarget<'a>, Refusal>
    ensures { Gives view_callable result (entered_by types.now.types place (view_expr variable)).run }
{
    let one = held_routine(types, place, variable)?;
    Ok(CallTarget::Through(one))
}

/// A member of an object or a record, selected at one place, in a call that begins at another.
pub(crate) fn member_callable<'a>(
    alloc: Global,
    scope: &'a Scope,
    place: Place,
    here: Place,
    owner: Expr,
    name: &Name,
) -> Result<CallTarget<'a>, Refusal>
    ensures { Gives view_callable result (member_callable scope.now place here (view_expr owner) name.now).run }
{
    let types = scope.types();
    if is_method_of(types, &owner, name) {
        let one = bound(alloc, scope, here, owner, name)?;
        Ok(CallTarget::Method(one))
    } else {
        let one = selected(alloc, types, here, owner, name)?;
        entered_by(types, place, one)
    }
}

fn callable_entry<'a>(
    alloc: Global,
    scope: &'a Scope,
    place: Place,
    entry: &'a Entry,
) -> Result<CallTarget<'a>, Refusal>
    ensures { Gives view_callable result (callable_entry scope.now place entry.now).run }
{
    match entry {
        Entry::Const { .. } => Err(Refusal::Because(broken(place, Rule::Stands))),
        Entry::Var {
            unit,
            level,
            number,
            ty,
        } => {
            let at = PlaceExpr::Var(variable(scope, *unit, *level, *number));
            let one = loaded(alloc, *ty, at)?;
            entered_by(scope.types(), place, one)
        }
        Entry::Ty { .. } | Entry::Code { .. } | Entry::Std { .. } => {
            Ok(CallTarget::Declared(entry))
        }
    }
}

fn callable_member<'a>(
    alloc: Global,
    scope: &'a Scope,
    place: Place,
    owner: Option<Expr>,
    name: &Name,
) -> Result<CallTarget<'a>, Refusal>
    ensures { Gives view_callable result (callable_member scope.now place (option_map view_expr owner) name.now).run }
{
    match owner {
        None => Err(Refusal::Because(broken(place, Rule::Stands))),
        Some(owner) => member_callable(alloc, scope, place, place, owner, name),
    }
}

/// What a name stands for before arguments.
#[tactic(auto, unfolding(crate::specs::Calls::callable_name))]
pub(crate) fn callable_name<'a>(
    alloc: Global,
    scope: &'a Scope,
    place: Place,
    name: &Name,
) -> Result<CallTarget<'a>, Refusal>
    ensures { Gives view_callable result (callable_name scope.now place name.now).run }
{
    match scope.find(name) {
        None => Err(Refusal::Because(undeclared(place, feature_of(name)))),
        Some(Found::Named { entry, .. }) => callable_entry(alloc, scope, place, entry),
        Some(Found::Member { block, .. }) => {
            let owner = owner_in(alloc, scope, block)?;
            callable_member(alloc, scope, place, owner, name)
        }
    }
}

/// The constructor that stands before arguments, behind the type in a New at a place.
pub(crate) fn constructor_at<'a>(
    scope: &'a Scope,
    ty: TypeId,
    place: Place,
    callee: &Designator,
) -> Result<CallTarget<'a>, Refusal>
    ensures { Gives view_callable result (constructor_at scope.now ty place (view_designator callee.now)).run }
{
    match callee {
        Designator::Name(one) => {
            let one = constructor(scope, place, ty, &one.name)?;
            Ok(CallTarget::Making(ty, one))
        }
        _ => Err(Refusal::Because(broken(place, Rule::Allocating))),
    }
}

/// The parameters of what is declared under a name, if it is a routine.
pub fn params_of(entry: &Entry) -> &[Param]
    ensures { result.now ≡ params_of_entry entry.now }
{
    match entry {
        Entry::Code { header, .. } => header.params.as_slice(),
        _ => &[],
    }
}

/// The parameters of what is called, where these say what is wanted of arguments.
pub fn parameters<'a>(target: &CallTarget<'a>) -> &'a [Param]
    ensures { result.now ≡ params_of (view_callable target.now) }
{
    match target {
        CallTarget::Declared(entry) => params_of(entry),
        CallTarget::Method(one) => one.header.params.as_slice(),
        CallTarget::Through(one) => one.header.params.as_slice(),
        CallTarget::Making(_, one) => one.header.params.as_slice(),
    }
}

// The number of a standard function that takes types.
pub(crate) fn special_of(target: &CallTarget<'_>) -> Option<u32>
    ensures { result ≡ special_of (view_callable target.now) }
{
    match target {
        CallTarget::Declared(Entry::Std { number }) if is_special(*number) => Some(*number),
        _ => None,
    }
}

/// The node of what is called with these arguments.
pub(crate) fn target_called(
    alloc: Global,
    types: &Types,
    here: Position,
    target: CallTarget<'_>,
    values: Vec<Expr>,
) -> Result<Expr, Refusal>
    ensures { Gives view_expr result (target_called types.now.types here (view_callable target.entry) (map view_expr values.items)).run }
{
    let (place, checked) = (here.place, here.switches.r);
    match target {
        CallTarget::Declared(entry) => called_with(alloc, types, here, entry, values),
        CallTarget::Method(one) => called_on(alloc, types, place, checked, one, values),
        CallTarget::Through(one) => called_through(alloc, types, place, checked, one, values),
        CallTarget::Making(ty, one) => made(alloc, types, place, checked, ty, one, values),
    }
}

// The node of a conversion or a call that begins here.
fn called_with(
    alloc: Global,
    types: &Types,
    here: Position,
    entry: &Entry,
    operands: Vec<Expr>,
) -> Result<Expr, Refusal>
    ensures { Gives view_expr result (called_with types.now.types here entry.now (map view_expr operands.items)).run }
{
    let place = here.place;
    match entry {
        Entry::Ty { ty } => cast(alloc, types, place, *ty, operands),
        Entry::Code {
            routine,
            header,
            ..
        } => called(
            alloc,
            types,
            place,
            here.switches.r,
            *routine,
            header,
            operands,
        ),
        Entry::Std { number } => standard(alloc, types, place, *number, operands),
        Entry::Const { .. } | Entry::Var { .. } => {
            Err(Refusal::Because(broken(place, Rule::Stands)))
        }
    }
}
