//! Where an expression begins.

ghost use Rattle.std.specs.Prelude.{◌≡◌};
ghost use Rattle.syntax_tree.specs.expression_tree.Trees.{view_expression, view_simple, view_term, view_factor, view_designator};
ghost use Rattle.syntax_tree.specs.expression_tree.Places.{first_place};

use crate::expression_tree::operators::begins;
use crate::{Designator, Expression, Factor, SimpleExpression, Term};
use type_layout::Place;

fn first_of_designator(tree: &Designator) -> Place
    ensures { result ≡ first_place (view_designator tree.now) }
{
    match tree {
        Designator::Name(one) => one.position.place,
        Designator::Field { owner, .. }
        | Designator::Index { owner, .. }
        | Designator::Dereference { owner, .. } => first_of_designator(owner),
    }
}

#[cycle(places)]
fn first_of_expression(tree: &Expression) -> Place
    ensures { result ≡ first_place (view_expression tree.now) }
{
    match tree {
        Expression::Simple(one) => first_place(one),
        Expression::Relation { left, .. } => first_place(left),
    }
}

/// The place of the first lexeme of an expression. Parentheses stand nowhere.
#[cycle(places)]
pub fn first_place(tree: &SimpleExpression) -> Place
    ensures { result ≡ first_place (view_simple tree.now) }
{
    match tree {
        SimpleExpression::Term(one) => first_of_term(one),
        SimpleExpression::Signed(mark, _) => mark.position.place,
        SimpleExpression::Sum { left, .. } => first_place(left),
    }
}

#[cycle(places)]
fn first_of_term(tree: &Term) -> Place
    ensures { result ≡ first_place (view_term tree.now) }
{
    match tree {
        Term::Factor(one) => first_of_factor(one),
        Term::Product { left, .. } => first_of_term(left),
    }
}

#[cycle(places)]
fn first_of_factor(tree: &Factor) -> Place
    ensures { result ≡ first_place (view_factor tree.now) }
{
    match tree {
        Factor::Number { position, .. }
        | Factor::Text { position, .. }
        | Factor::Control { position, .. }
        | Factor::Nil { position }
        | Factor::Negation { position, .. }
        | Factor::Set { position, .. } => position.place,
        Factor::Group { inner, .. } => first_of_expression(inner),
        Factor::Designator(one) => first_of_designator(one),
        Factor::Call { callee, .. } => begins(callee).place,
    }
}
