//! Where an expression stands as a part of a statement.

ghost use Rattle.std.specs.Prelude.{◌≡◌};
ghost use Rattle.syntax_tree.specs.expression_tree.Trees.{view_expression, view_simple, view_term, view_factor, view_designator};
ghost use Rattle.syntax_tree.specs.statement_tree.Places.{place_of};

use crate::expression_tree::begins;
use crate::{Designator, Expression, Factor, SimpleExpression, Term};
use type_layout::Place;

/// The place of a designator: that of its name.
pub fn place_of_designator(tree: &Designator) -> Place
    ensures { result ≡ place_of (view_designator tree.now) }
{
    match tree {
        Designator::Name(one) => one.position.place,
        Designator::Field { owner, .. }
        | Designator::Index { owner, .. }
        | Designator::Dereference { owner, .. } => place_of_designator(owner),
    }
}

/// The place of an expression: that of its operator or sign, else of its first lexeme. Parentheses stand nowhere.
#[cycle(places)]
pub fn place_of(tree: &Expression) -> Place
    ensures { result ≡ place_of (view_expression tree.now) }
{
    match tree {
        Expression::Simple(one) => place_of_simple(one),
        Expression::Relation { position, .. } => position.place,
    }
}

/// The same of a simple expression.
#[cycle(places)]
pub fn place_of_simple(tree: &SimpleExpression) -> Place
    ensures { result ≡ place_of (view_simple tree.now) }
{
    match tree {
        SimpleExpression::Term(one) => place_of_term(one),
        SimpleExpression::Signed(mark, _) => mark.position.place,
        SimpleExpression::Sum { position, .. } => position.place,
    }
}

#[cycle(places)]
fn place_of_term(tree: &Term) -> Place
    ensures { result ≡ place_of (view_term tree.now) }
{
    match tree {
        Term::Factor(one) => place_of_factor(one),
        Term::Product { position, .. } => position.place,
    }
}

#[cycle(places)]
fn place_of_factor(tree: &Factor) -> Place
    ensures { result ≡ place_of (view_factor tree.now) }
{
    match tree {
        Factor::Number { position, .. }
        | Factor::Text { position, .. }
        | Factor::Control { position, .. }
        | Factor::Nil { position }
        | Factor::Negation { position, .. }
        | Factor::Set { position, .. } => position.place,
        Factor::Group { inner, .. } => place_of(inner),
        Factor::Designator(one) => place_of_designator(one),
        Factor::Call { callee, .. } => begins(callee).place,
    }
}
