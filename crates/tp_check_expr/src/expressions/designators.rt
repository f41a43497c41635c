//! Designators: what stands for a place or a value, and what stands before the arguments of a call.

ghost use Rattle.typed_tree.specs.Expressions.{view_expr};
ghost use Rattle.typing_rules.specs.Judgements.{Gives};
ghost use Rattle.syntax_tree.specs.expression_tree.Trees.{view_designator};
ghost use Rattle.tp_check_expr.specs.Calls.{view_callable};
ghost use Rattle.tp_check_expr.specs.Typed.{judged_as, callable};

use crate::calls::{CallTarget, callable_name, entered_by, member_callable};
use crate::expressions::expression_as;
use crate::members::{chosen, method_wanted, named};
use crate::names::{Purpose, as_wanted};
use crate::operations::element;
use crate::owners::{inherited_from, type_in};
use scopes::Scope;
use std::alloc::Global;
use syntax_tree::Designator;
use type_layout::Place;
use typed_tree::Expr;
use typing_rules::{Refusal, followed};

/// The node of a designator that stands for this.
#[cycle(parts)]
pub fn designator_as(
    alloc: Global,
    tree: &Designator,
    purpose: Purpose,
    scope: &Scope,
) -> Result<Expr, Refusal>
    ensures { Gives view_expr result (judged_as scope.now purpose (view_designator tree.now)).run }
{
    let types = scope.types();
    match tree {
        Designator::Name(one) => named(alloc, scope, one.position, purpose, &one.name),
        Designator::Field {
            owner,
            position,
            field,
        } => match type_in(scope, owner) {
            Some(one) => {
                let one = inherited_from(scope, position.place, one, &field.name)?;
                method_wanted(alloc, types, *position, purpose, one)
            }
            None => {
                let owner = designator_as(alloc, owner, Purpose::Value, scope)?;
                chosen(alloc, scope, *position, purpose, owner, &field.name)
            }
        },
        Designator::Index {
            owner,
            position,
            index,
            ..
        } => {
            let owner = designator_as(alloc, owner, Purpose::Value, scope)?;
            let index = expression_as(alloc, index, Purpose::Value, scope)?;
            let one = element(alloc, types, *position, owner, index)?;
            as_wanted(alloc, types, position.place, purpose, one)
        }
        Designator::Dereference { owner, position } => {
            let owner = designator_as(alloc, owner, Purpose::Value, scope)?;
            let one = followed(alloc, types, position.place, owner)?;
            as_wanted(alloc, types, position.place, purpose, one)
        }
    }
}

/// What stands before arguments, in a call that begins at a place.
#[cycle(parts)]
pub fn callable<'a>(
    alloc: Global,
    callee: &Designator,
    place: Place,
    scope: &'a Scope,
) -> Result<CallTarget<'a>, Refusal>
    ensures { Gives view_callable result (callable scope.now place (view_designator callee.now)).run }
{
    let types = scope.types();
    match callee {
        Designator::Name(one) => callable_name(alloc, scope, one.position.place, &one.name),
        Designator::Field {
            owner,
            position,
            field,
        } => match type_in(scope, owner) {
            Some(one) => {
                let one = inherited_from(scope, position.place, one, &field.name)?;
                Ok(CallTarget::Method(one))
            }
            None => {
                let owner = designator_as(alloc, owner, Purpose::Value, scope)?;
                member_callable(alloc, scope, place, position.place, owner, &field.name)
            }
        },
        Designator::Index {
            owner,
            position,
            index,
            ..
        } => {
            let owner = designator_as(alloc, owner, Purpose::Value, scope)?;
            let index = expression_as(alloc, index, Purpose::Value, scope)?;
            let one = element(alloc, types, *position, owner, index)?;
            entered_by(types, place, one)
        }
        Designator::Dereference { owner, position } => {
            let owner = designator_as(alloc, owner, Purpose::Value, scope)?;
            let one = followed(alloc, types, position.place, owner)?;
            entered_by(types, place, one)
        }
    }
}
