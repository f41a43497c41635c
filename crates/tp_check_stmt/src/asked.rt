//! Expressions of which a statement asks something.

ghost use Rattle.std.specs.Prelude.{◌≡◌};
ghost use Rattle.typed_tree.specs.Expressions.{view_expr};
ghost use Rattle.syntax_tree.specs.expression_tree.Trees.{view_expression};
ghost use Rattle.typing_rules.specs.Judgements.{Gives};
ghost use Rattle.tp_check_stmt.specs.Asked.{condition, selector, written_value, width, is_writable, is_readable};

use call_rules::is_ordinal;
use scopes::Scope;
use std::alloc::Global;
use syntax_tree::Expression;
use syntax_tree::statement_tree::place_of;
use tp_check_expr::judged_expression;
use typed_tree::Expr;
use typing_rules::{Refusal, Rule, Sort, broken, is_boolean, is_integer, sort_of};

/// The node of a condition.
pub(crate) fn condition(alloc: Global, tree: &Expression, scope: &Scope) -> Result<Expr, Refusal>
    ensures { Gives view_expr result (condition scope.now (view_expression tree.now)).run }
{
    let value = judged_expression(alloc, tree, scope)?;
    if is_boolean(sort_of(scope.types(), &value)) {
        Ok(value)
    } else {
        Err(Refusal::Because(broken(place_of(tree), Rule::Conditional)))
    }
}

/// The node of what a `case` selects by.
pub(crate) fn selector(alloc: Global, tree: &Expression, scope: &Scope) -> Result<Expr, Refusal>
    ensures { Gives view_expr result (selector scope.now (view_expression tree.now)).run }
{
    let value = judged_expression(alloc, tree, scope)?;
    if is_ordinal(sort_of(scope.types(), &value)) {
        Ok(value)
    } else {
        Err(Refusal::Because(broken(place_of(tree), Rule::Labelled)))
    }
}

fn is_writable(sort: Sort) -> bool
    ensures { result ≡ is_writable sort }
{
    matches!(
        sort,
        Sort::Integer(_) | Sort::Boolean | Sort::Char | Sort::Text
    )
}

/// The node of a value that is written.
pub(crate) fn written_value(
    alloc: Global,
    tree: &Expression,
    scope: &Scope,
) -> Result<Expr, Refusal>
    ensures { Gives view_expr result (written_value scope.now (view_expression tree.now)).run }
{
    let value = judged_expression(alloc, tree, scope)?;
    if is_writable(sort_of(scope.types(), &value)) {
        Ok(value)
    } else {
        Err(Refusal::Because(broken(place_of(tree), Rule::Written)))
    }
}

/// The node of a width.
pub(crate) fn width(alloc: Global, tree: &Expression, scope: &Scope) -> Result<Expr, Refusal>
    ensures { Gives view_expr result (width scope.now (view_expression tree.now)).run }
{
    let value = judged_expression(alloc, tree, scope)?;
    if is_integer(sort_of(scope.types(), &value)) {
        Ok(value)
    } else {
        Err(Refusal::Because(broken(place_of(tree), Rule::Written)))
    }
}

/// Whether values of this sort are read.
pub(crate) fn is_readable(sort: Sort) -> bool
    ensures { result ≡ is_readable sort }
{
    matches!(sort, Sort::Integer(_) | Sort::Char | Sort::Text)
}
