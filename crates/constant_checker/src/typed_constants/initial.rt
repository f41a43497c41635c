//! First values, part by part.

ghost use Rattle.std.specs.Prelude.{◌≡◌};
ghost use Rattle.std.specs.Option.{option_copied};
ghost use Rattle.syntax_tree.specs.expression_tree.Trees.{view_simple};
ghost use Rattle.typing_rules.specs.Judgements.{Gives};
ghost use Rattle.constant_checker.specs.typed_constants.Trees.{value, list, group, view_initializer, view_items, view_fields};
ghost use Rattle.constant_checker.specs.typed_constants.Initializers.{judged, items_judged, fields_judged, first_value};

use crate::typed_constants::fields::{
    behind_next, due_for, element_due, ended, fields_due, grouped, placed,
};
use crate::typed_constants::fitting::{counted, fitted};
use crate::typed_constants::plain::is_plain;
use crate::typed_constants::written::written_as;
use scopes::Scope;
use std::alloc::Global;
use syntax_tree::SimpleExpression;
use syntax_tree::expression_tree::first_place;
use syntax_tree::type_tree::{FieldValue, Initializer};
use tp_lexer::Feature;
use type_layout::{Bytes, Field, Place, TypeId};
use typing_rules::{Refusal, left_out};

fn value_judged(
    alloc: Global,
    tree: &SimpleExpression,
    scope: &Scope,
    due: Option<TypeId>,
    before: Bytes,
) -> Result<Bytes, Refusal>
    ensures { Gives (λ bytes. bytes) result (judged scope.now due before (value (view_simple tree.now))).run }
{
    let written = written_as(alloc, tree, scope)?;
    fitted(
        alloc,
        scope.types(),
        first_place(tree),
        due,
        before,
        &written,
    )
}

// The bytes of a value behind those before it.
#[cycle(parts)]
fn judged(
    alloc: Global,
    tree: &Initializer,
    scope: &Scope,
    due: Option<TypeId>,
    before: Bytes,
) -> Result<Bytes, Refusal>
    ensures { Gives (λ bytes. bytes) result (judged scope.now due before (view_initializer tree.now)).run }
{
    match tree {
        Initializer::Value(one) => value_judged(alloc, one, scope, due, before),
        Initializer::List { position, items } => {
            list_judged(alloc, items.as_slice(), scope, position.place, due, before)
        }
        Initializer::Record { position, fields } => {
            group_judged(alloc, fields.as_slice(), scope, position.place, due, before)
        }
    }
}

// Values in parentheses.
#[cycle(parts)]
#[tactic(auto, using(crate::proofs::typed_constants::Views::counts))]
fn list_judged(
    alloc: Global,
    items: &[Initializer],
    scope: &Scope,
    place: Place,
    due: Option<TypeId>,
    before: Bytes,
) -> Result<Bytes, Refusal>
    ensures { Gives (λ bytes. bytes) result (judged scope.now due before (list place (view_items items.now))).run }
{
    let element = element_due(scope.types(), due);
    let bytes = items_judged(alloc, items, scope, element, before)?;
    counted(scope.types(), place, due, items.len(), bytes)
}

#[cycle(parts)]
fn items_judged(
    alloc: Global,
    items: &[Initializer],
    scope: &Scope,
    due: Option<TypeId>,
    before: Bytes,
) -> Result<Bytes, Refusal>
    ensures { Gives (λ bytes. bytes) result (items_judged scope.now due before (view_items items.now)).run }
{
    let mut bytes = before;
    for one in items {
        bytes = judged(alloc, one, scope, due, bytes)?;
    }
    Ok(bytes)
}

// Fields in parentheses.
#[cycle(parts)]
fn group_judged(
    alloc: Global,
    fields: &[FieldValue],
    scope: &Scope,
    place: Place,
    due: Option<TypeId>,
    before: Bytes,
) -> Result<Bytes, Refusal>
    ensures { Gives (λ bytes. bytes) result (judged scope.now due before (group place (view_fields fields.now))).run }
{
    let wanted = fields_due(scope.types(), due);
    let bytes = fields_judged(alloc, fields, scope, place, wanted, before)?;
    grouped(scope.types(), place, due, bytes)
}

#[cycle(parts)]
fn fields_judged(
    alloc: Global,
    fields: &[FieldValue],
    scope: &Scope,
    place: Place,
    due: Option<&[Field]>,
    before: Bytes,
) -> Result<Bytes, Refusal>
    ensures { Gives (λ bytes. bytes) result (fields_judged scope.now place (option_copied due.entry) before (view_fields fields.now)).run }
{
    let mut bytes = before;
    let mut due = due;
    for one in fields {
        let FieldValue::Field { name, value } = one;
        bytes = judged(alloc, value, scope, due_for(due, &name.name), bytes)?;
        bytes = placed(name.position.place, due, &name.name, bytes)?;
        due = behind_next(due);
    }
    ended(place, due, bytes)
}

/// The bytes that a typed constant of a type begins with, which stands at a place; or a fault that is in its first value.
pub fn first_value(
    alloc: Global,
    tree: &Initializer,
    scope: &Scope,
    place: Place,
    ty: TypeId,
) -> Result<Bytes, Refusal>
    ensures { Gives (λ bytes. bytes) result (first_value scope.now place ty (view_initializer tree.now)).run }
{
    if is_plain(alloc, scope.types(), ty)? {
        judged(alloc, tree, scope, Some(ty), Bytes::new(alloc))
    } else {
        Err(Refusal::Because(left_out(place, Feature::TypedConstants)))
    }
}
