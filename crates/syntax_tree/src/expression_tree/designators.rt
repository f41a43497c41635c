//! Arguments that are designators.

ghost use Rattle.std.specs.Prelude.{◌≡◌};
ghost use Rattle.std.specs.Option.{option_copied, option_map};
ghost use Rattle.syntax_tree.specs.expression_tree.Trees.{designator_in, sole_designator, view_arguments, view_designator, view_expression, view_factor, view_simple, view_term};

use crate::{Argument, Designator, Expression, Factor, SimpleExpression, Term};

/// The designator that an expression is, in parentheses or not.
#[cycle(parts)]
pub fn designator_in(tree: &Expression) -> Option<&Designator>
    ensures { option_map view_designator (option_copied result) ≡ designator_in (view_expression tree.now) }
{
    match tree {
        Expression::Simple(one) => in_simple(one),
        Expression::Relation { .. } => None,
    }
}

#[cycle(parts)]
fn in_simple(tree: &SimpleExpression) -> Option<&Designator>
    ensures { option_map view_designator (option_copied result) ≡ designator_in (view_simple tree.now) }
{
    match tree {
        SimpleExpression::Term(one) => in_term(one),
        SimpleExpression::Signed(..) | SimpleExpression::Sum { .. } => None,
    }
}

#[cycle(parts)]
fn in_term(tree: &Term) -> Option<&Designator>
    ensures { option_map view_designator (option_copied result) ≡ designator_in (view_term tree.now) }
{
    match tree {
        Term::Factor(one) => in_factor(one),
        Term::Product { .. } => None,
    }
}

#[cycle(parts)]
fn in_factor(tree: &Factor) -> Option<&Designator>
    ensures { option_map view_designator (option_copied result) ≡ designator_in (view_factor tree.now) }
{
    match tree {
        Factor::Designator(one) => Some(one),
        Factor::Group { inner, .. } => designator_in(inner),
        Factor::Number { .. }
        | Factor::Text { .. }
        | Factor::Control { .. }
        | Factor::Nil { .. }
        | Factor::Set { .. }
        | Factor::Negation { .. }
        | Factor::Call { .. } => None,
    }
}

/// The designator that is the only argument of a call, in parentheses or not.
pub fn sole_designator(arguments: &[Argument]) -> Option<&Designator>
    ensures { option_map view_designator (option_copied result) ≡ sole_designator (view_arguments arguments.now) }
{
    match arguments {
        [Argument::Plain(one), rest @ ..] => match rest {
            [] => designator_in(one),
            [_, ..] => None,
        },
        [Argument::Wide(..), ..] => None,
        [] => None,
    }
}
