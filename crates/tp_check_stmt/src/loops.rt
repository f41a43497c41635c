//! What a `for` counts by.

ghost use Rattle.std.specs.Prelude.{◌≡◌, Ok, option_copied};
ghost use Rattle.typed_tree.specs.Expressions.{view_expr};
ghost use Rattle.syntax_tree.specs.expression_tree.Trees.{view_expression};
ghost use Rattle.typing_rules.specs.Judgements.{Gives};
ghost use Rattle.typing_rules.specs.Assignments.{assigned_by};
ghost use Rattle.tp_check_stmt.specs.Loops.{counter_itself, view_count, is_near, has_order, counter_of, counter_entry, counter, whole, bound_by, bound, counted, is_down};

use pascal_grammar::Direction;
use scopes::{Entry, Found, Scope};
use std::alloc::Global;
use syntax_tree::statement_tree::place_of;
use syntax_tree::{Expression, Identifier};
use tp_check_expr::{judged_expression, variable};
use tp_lexer::left_out_names::feature_of;
use type_layout::{Host, Name, Place, TypeDef, TypeId, Types, storage_of};
use typed_tree::{Expr, Variable};
use typing_rules::{
    Refusal, Rule, assigned_by, broken, definition, is_assignable, sort_of, sort_of_type,
    stored_of_type, type_of, undeclared,
};

/// A variable that a `for` may count by, and its type.
#[derive(Clone, Copy, Debug, PartialEq, Eq)]
pub(crate) struct Counter {
    pub variable: Variable,
    pub ty: TypeId,
}

/// A counter, and the nodes of its bounds.
#[derive(Drop)]
pub(crate) struct Count {
    pub counter: Counter,
    pub first: Expr,
    pub last: Expr,
}

fn is_near(one: Variable) -> bool
    ensures { result ≡ is_near one }
{
    one.level == 1 || one.level == 0 && one.unit == 0
}

fn has_order(one: Option<&TypeDef>) -> bool
    ensures { result ≡ has_order (option_copied one.entry) }
{
    matches!(one, Some(TypeDef::Ordinal { .. }))
}

fn counter_of(
    types: &Types,
    place: Place,
    variable: Variable,
    ty: TypeId,
) -> Result<Counter, Refusal>
    ensures { Gives counter_itself result (counter_of types.now.types place variable ty).run }
{
    if is_near(variable) && has_order(definition(types, ty)) {
        Ok(Counter { variable, ty })
    } else {
        Err(Refusal::Because(broken(place, Rule::Counted)))
    }
}

fn counter_entry(scope: &Scope, place: Place, entry: &Entry) -> Result<Counter, Refusal>
    ensures { Gives counter_itself result (counter_entry scope.now place entry.now).run }
{
    match entry {
        Entry::Var {
            unit,
            level,
            number,
            ty,
        } => counter_of(
            scope.types(),
            place,
            variable(scope, *unit, *level, *number),
            *ty,
        ),
        _ => Err(Refusal::Because(broken(place, Rule::Counted))),
    }
}

// The variable of a `for`, which stands at this place.
#[tactic(auto, unfolding(crate::specs::Loops::counter))]
fn counter_named(scope: &Scope, place: Place, name: &Name) -> Result<Counter, Refusal>
    ensures { Gives counter_itself result (counter scope.now place name.now).run }
{
    match scope.find(name) {
        None => Err(Refusal::Because(undeclared(place, feature_of(name)))),
        Some(Found::Named { entry, .. }) => counter_entry(scope, place, entry),
        Some(Found::Member { .. }) => Err(Refusal::Because(broken(place, Rule::Counted))),
    }
}

// A value as a variable of a type with this definition is stored, in the predefined type that stores it.
fn stored_whole(
    alloc: Global,
    ty: TypeId,
    one: Option<&TypeDef>,
    stored: Option<Host>,
    checked: bool,
    value: Expr,
) -> Result<Expr, Refusal>
    ensures { Gives view_expr result (Ok (assigned_by ty (whole (option_copied one.entry)) stored checked (view_expr value))) }
{
    match one {
        Some(TypeDef::Ordinal { host, low, high }) => {
            let host = storage_of(*host, *low, *high);
            let whole = TypeDef::Ordinal {
                host,
                low: host.least(),
                high: host.greatest(),
            };
            assigned_by(alloc, ty, Some(&whole), stored, checked, value)
        }
        _ => assigned_by(alloc, ty, one, stored, checked, value),
    }
}

fn bound_by(
    alloc: Global,
    types: &Types,
    place: Place,
    ty: TypeId,
    checked: bool,
    value: Expr,
) -> Result<Expr, Refusal>
    ensures { Gives view_expr result (bound_by types.now.types place ty checked (view_expr value)).run }
{
    let own = type_of(&value);
    if !is_assignable(
        types,
        sort_of_type(types, ty),
        sort_of(types, &value),
        ty,
        own,
    ) {
        return Err(Refusal::Because(broken(place, Rule::Assigned)));
    }
    let stored = stored_of_type(types, own);
    stored_whole(alloc, ty, definition(types, ty), stored, checked, value)
}

fn bound(
    alloc: Global,
    tree: &Expression,
    scope: &Scope,
    ty: TypeId,
    checked: bool,
) -> Result<Expr, Refusal>
    ensures { Gives view_expr result (bound scope.now checked ty (view_expression tree.now)).run }
{
    let value = judged_expression(alloc, tree, scope)?;
    bound_by(alloc, scope.types(), place_of(tree), ty, checked, value)
}

/// What a `for` counts by, from where to where. With `checked` the bounds lie in the predefined type that stores the variable.
pub(crate) fn counted(
    alloc: Global,
    variable: &Identifier,
    first: &Expression,
    last: &Expression,
    scope: &Scope,
    checked: bool,
) -> Result<Count, Refusal>
    ensures { Gives view_count result (counted scope.now checked variable.now.position.place variable.now.name (view_expression first.now) (view_expression last.now)).run }
{
    let counter = counter_named(scope, variable.position.place, &variable.name)?;
    let first = bound(alloc, first, scope, counter.ty, checked)?;
    let last = bound(alloc, last, scope, counter.ty, checked)?;
    Ok(Count {
        counter,
        first,
        last,
    })
}

/// Whether a `for` counts down.
pub(crate) fn is_down(direction: Direction) -> bool
    ensures { result ≡ is_down direction }
{
    match direction {
        Direction::Up => false,
        Direction::Down => true,
    }
}
