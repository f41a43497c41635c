//! Expressions.

use crate::outcome::put_outcome;
use expression_parser::{ReadError, read_expression};
use pascal_grammar::{Adder, Lexeme, Sign};
use std::alloc::Global;
use syntax_tree::{Designator, Expression, Factor, IndexMark, SimpleExpression, Term};
use test_rows::{Line, put};

/// The selectors of what is called, the last one first, where they are these four.
pub(crate) fn selectors(callee: &Designator) -> &'static str {
    if let Designator::Field { owner, .. } = callee {
        if let Designator::Dereference { owner, .. } = &**owner {
            if let Designator::Index {
                owner,
                mark: IndexMark::Bracket,
                ..
            } = &**owner
            {
                if let Designator::Field { .. } = &**owner {
                    return "call of field of pointer of index of field";
                }
            }
        }
    }
    "call of others"
}

/// What an expression holds.
pub(crate) fn shape(expression: &Expression) -> &'static str {
    match expression {
        Expression::Relation { .. } => "relation",
        Expression::Simple(simple) => shape_of_simple(simple),
    }
}

fn shape_of_simple(simple: &SimpleExpression) -> &'static str {
    match simple {
        SimpleExpression::Sum {
            left,
            adder: Adder::Plus,
            sign: None,
            ..
        } => match &**left {
            SimpleExpression::Signed(..) => "signed and term",
            SimpleExpression::Sum { .. } => "sum and term",
            SimpleExpression::Term(_) => "term and term",
        },
        SimpleExpression::Term(term) => shape_of_term(term),
        _ => "other",
    }
}

fn shape_of_term(term: &Term) -> &'static str {
    match term {
        Term::Product {
            left,
            sign: Some(placed),
            ..
        } => match (&**left, placed.sign) {
            (Term::Factor(one), Sign::Minus) if matches!(&**one, Factor::Designator(_)) => {
                "factor and signed factor"
            }
            (_, _) => "product",
        },
        Term::Factor(one) => match &**one {
            Factor::Call { callee, arguments } if arguments.len() == 1 => selectors(callee),
            _ => "other",
        },
        Term::Product { .. } => "other",
    }
}

fn shape_read(read: &Result<(Expression, &[Lexeme]), ReadError>) -> &'static str {
    match read {
        Ok((expression, rest)) if rest.is_empty() => shape(expression),
        _ => "none",
    }
}

/// Writes what an expression holds, or the outcome.
pub(crate) fn put_expression(alloc: Global, out: &mut Line, as_tree: bool, lexemes: &[Lexeme]) {
    let read = read_expression(alloc, 200, lexemes);
    if as_tree {
        put(out, shape_read(&read));
    } else {
        put_outcome(out, lexemes, &read);
    }
}
