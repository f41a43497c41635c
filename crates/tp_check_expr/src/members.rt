//! Members of objects and records, and names as expressions.

ghost use Rattle.std.specs.Prelude.{◌≡◌, option_map};
ghost use Rattle.typed_tree.specs.Expressions.{view_expr};
ghost use Rattle.typing_rules.specs.Judgements.{Gives};
ghost use Rattle.call_rules.specs.method_rules.Methods.{view_bound};
ghost use Rattle.tp_check_expr.specs.Calls.{is_method_of, method_wanted, chosen, opened, constructor_named, name_judged};

use crate::names::{Purpose, as_wanted, entered};
use crate::owners::owner_in;
use call_rules::allocation_rules::{constructor, made};
use call_rules::method_rules::{BoundMethod, bound, called_on, method_in};
use pascal_grammar::Position;
use scopes::{Found, Scope};
use std::alloc::Global;
use tp_lexer::left_out_names::feature_of;
use type_layout::{Name, Place, TypeId, Types};
use typed_tree::Expr;
use typing_rules::{Refusal, Rule, broken, selected, undeclared};

/// Whether what has this name in an operand is a method.
pub(crate) fn is_method_of(types: &Types, owner: &Expr, name: &Name) -> bool
    ensures { result ≡ is_method_of types.now.types (view_expr owner.now) name.now }
{
    match owner {
        Expr::Load { ty, .. } => method_in(types, *ty, name).is_some(),
        _ => false,
    }
}

/// The node of a method without arguments: of a call of it. No method is a value of a procedural type.
pub(crate) fn method_wanted(
    alloc: Global,
    types: &Types,
    here: Position,
    purpose: Purpose,
    one: BoundMethod<'_>,
) -> Result<Expr, Refusal>
    ensures { Gives view_expr result (method_wanted types.now.types here purpose (view_bound one.entry)).run }
{
    match purpose {
        Purpose::Routine { .. } => Err(Refusal::Because(broken(here.place, Rule::RoutineValue))),
        _ => called_on(
            alloc,
            types,
            here.place,
            here.switches.r,
            one,
            Vec::new(alloc),
        ),
    }
}

/// The node of a member of an object or a record, without arguments.
pub(crate) fn chosen(
    alloc: Global,
    scope: &Scope,
    here: Position,
    purpose: Purpose,
    owner: Expr,
    name: &Name,
) -> Result<Expr, Refusal>
    ensures { Gives view_expr result (chosen scope.now here purpose (view_expr owner) name.now).run }
{
    let types = scope.types();
    if is_method_of(types, &owner, name) {
        let one = bound(alloc, scope, here.place, owner, name)?;
        method_wanted(alloc, types, here, purpose, one)
    } else {
        let one = selected(alloc, types, here.place, owner, name)?;
        as_wanted(alloc, types, here.place, purpose, one)
    }
}

// A member that is known in a block, of what has it.
fn opened(
    alloc: Global,
    scope: &Scope,
    here: Position,
    purpose: Purpose,
    owner: Option<Expr>,
    name: &Name,
) -> Result<Expr, Refusal>
    ensures { Gives view_expr result (opened scope.now here purpose (option_map view_expr owner) name.now).run }
{
    match owner {
        None => Err(Refusal::Because(broken(here.place, Rule::Stands))),
        Some(owner) => chosen(alloc, scope, here, purpose, owner, name),
    }
}

// A constructor without arguments, behind the type in a New at a place.
#[tactic(auto, unfolding(crate::specs::Calls::constructor_named))]
fn constructor_named(
    alloc: Global,
    scope: &Scope,
    here: Position,
    ty: TypeId,
    place: Place,
    name: &Name,
) -> Result<Expr, Refusal>
    ensures { Gives view_expr result (constructor_named scope.now here ty place name.now).run }
{
    let one = constructor(scope, place, ty, name)?;
    let checked = here.switches.r;
    let none = Vec::new(alloc);
    made(alloc, scope.types(), here.place, checked, ty, one, none)
}

/// The node of a name that stands here.
#[tactic(auto, unfolding(crate::specs::Calls::name_judged))]
pub(crate) fn named(
    alloc: Global,
    scope: &Scope,
    here: Position,
    purpose: Purpose,
    name: &Name,
) -> Result<Expr, Refusal>
    ensures { Gives view_expr result (name_judged scope.now here purpose name.now).run }
{
    if let Purpose::Constructor { ty, place } = purpose {
        return constructor_named(alloc, scope, here, ty, place, name);
    }
    match scope.find(name) {
        None => Err(Refusal::Because(undeclared(here.place, feature_of(name)))),
        Some(Found::Named { entry, .. }) => entered(alloc, scope, here, purpose, entry),
        Some(Found::Member { block, .. }) => {
            let owner = owner_in(alloc, scope, block)?;
            opened(alloc, scope, here, purpose, owner, name)
        }
    }
}
