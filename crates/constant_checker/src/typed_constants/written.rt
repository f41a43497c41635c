//! Expressions as first values.

ghost use Rattle.std.specs.Prelude.{◌≡◌};
ghost use Rattle.typing_rules.specs.Judgements.{Gives};
ghost use Rattle.syntax_tree.specs.expression_tree.Trees.{view_simple};
ghost use Rattle.constant_checker.specs.typed_constants.Written.{of_constant, written_as};

use crate::constant_expressions::{Constant, constant_of};
use scopes::Scope;
use std::alloc::Global;
use syntax_tree::SimpleExpression;
use type_layout::Types;
use typed_tree::Value;
use typing_rules::{Refusal, Sort, sort_of_constant};

/// A constant, and what it is to the type that is due.
#[derive(Debug, Drop)]
pub struct Written {
    pub sort: Sort,
    pub value: Value,
}

fn of_constant(types: &Types, constant: Constant) -> Written
    ensures { result ≡ of_constant types.now.types constant }
{
    Written {
        sort: sort_of_constant(types, constant.ty, &constant.value),
        value: constant.value,
    }
}

/// What an expression is as a first value.
pub(crate) fn written_as(
    alloc: Global,
    tree: &SimpleExpression,
    scope: &Scope,
) -> Result<Written, Refusal>
    ensures { Gives (λ one. one) result (written_as scope.now (view_simple tree.now)).run }
{
    let constant = constant_of(alloc, tree, scope)?;
    Ok(of_constant(scope.types(), constant))
}
