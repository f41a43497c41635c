//! Arguments of calls.

ghost use Rattle.std.specs.Prelude.{◌≡◌};
ghost use Rattle.std.specs.Option.{option_map};
ghost use Rattle.typed_tree.specs.Statements.{view_written};
ghost use Rattle.syntax_tree.specs.expression_tree.Trees.{call, begins, view_expression, view_simple, view_term, view_factor, view_designator, view_argument, view_arguments};
ghost use Rattle.typing_rules.specs.Judgements.{Gives};
ghost use Rattle.tp_check_stmt.specs.Arguments.{view_named, named_call, sized};

use crate::nodes::{plain_item, wide_item};
use scopes::Scope;
use std::alloc::Global;
use syntax_tree::{Argument, Designator, Expression, Factor, Identifier, SimpleExpression, Term};
use tp_check_expr::judged_expression;
use typed_tree::WriteItem;
use typing_rules::Refusal;

/// A name, alone or before arguments.
#[derive(Clone, Copy)]
pub(crate) struct SoleCall<'a> {
    pub name: &'a Identifier,
    pub arguments: &'a [Argument],
}

#[cycle(levels)]
fn call_in_simple(tree: &SimpleExpression) -> Option<SoleCall<'_>>
    ensures { option_map view_named result ≡ named_call (view_simple tree.now) }
{
    match tree {
        SimpleExpression::Term(one) => call_in_term(one),
        SimpleExpression::Signed(..) | SimpleExpression::Sum { .. } => None,
    }
}

#[cycle(levels)]
fn call_in_term(tree: &Term) -> Option<SoleCall<'_>>
    ensures { option_map view_named result ≡ named_call (view_term tree.now) }
{
    match tree {
        Term::Factor(one) => call_in_factor(one),
        Term::Product { .. } => None,
    }
}

fn call_by<'a>(callee: &'a Designator, arguments: &'a [Argument]) -> Option<SoleCall<'a>>
    ensures { option_map view_named result ≡ named_call (call (begins callee.now) (view_designator callee.now) (view_arguments arguments.now)) }
{
    match callee {
        Designator::Name(name) => Some(SoleCall { name, arguments }),
        _ => None,
    }
}

#[cycle(levels)]
fn call_in_factor(tree: &Factor) -> Option<SoleCall<'_>>
    ensures { option_map view_named result ≡ named_call (view_factor tree.now) }
{
    match tree {
        Factor::Designator(Designator::Name(name)) => Some(SoleCall {
            name,
            arguments: &[],
        }),
        Factor::Call { callee, arguments } => call_by(callee, arguments.as_slice()),
        Factor::Group { inner, .. } => named_call(inner),
        _ => None,
    }
}

/// What an expression calls by a name, in parentheses or not, as a destructor is called.
#[cycle(levels)]
pub(crate) fn named_call(tree: &Expression) -> Option<SoleCall<'_>>
    ensures { option_map view_named result ≡ named_call (view_expression tree.now) }
{
    match tree {
        Expression::Simple(one) => call_in_simple(one),
        Expression::Relation { .. } => None,
    }
}

/// An argument, and its width if it has one.
pub(crate) fn sized(alloc: Global, argument: &Argument, scope: &Scope) -> Result<WriteItem, Refusal>
    ensures { Gives view_written result (sized scope.now (view_argument argument.now)).run }
{
    match argument {
        Argument::Plain(one) => {
            let value = judged_expression(alloc, one, scope)?;
            plain_item(alloc, value)
        }
        Argument::Wide(one, by) => {
            let value = judged_expression(alloc, one, scope)?;
            let width = judged_expression(alloc, by, scope)?;
            wide_item(alloc, value, width)
        }
    }
}
