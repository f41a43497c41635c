//! Nodes of what was read.

ghost use Rattle.std.specs.Prelude.{◌≡◌, IfErr, IfOk, List, [], ◌∷◌};
ghost use Rattle.pascal_grammar.specs.Productions.{no_terms, term, no_factors, no_selectors, group_factor, negation, dereference, field, last_index};
ghost use Rattle.syntax_tree.specs.Expressions.{Parsed, of, word, mark_at, name_of, closed, selector, of_expression, of_simple, of_term, of_factor};
ghost use Rattle.expression_parser.specs.Views.{single_of, compared_of, leading_of, added_of, multiplied_of, named_with, indexed_with, index_of};
ghost use Rattle.expression_parser.specs.declared.error.ReadError.TheVariants.{NoMemory};

use crate::error::ReadError;
use pascal_grammar::{Adder, Multiplier, Position, Relator};
use std::alloc::Global;
use syntax_tree::{
    Designator, Expression, Factor, Identifier, IndexMark, PlacedSign, SimpleExpression, Term,
};

/// One simple expression, which is compared with nothing.
pub fn single(alloc: Global, simple: SimpleExpression) -> Result<Expression, ReadError>
    ensures ok { IfOk result (λ x. of_expression x ≡ single_of (of_simple simple (of no_terms []))) }
    ensures err { IfErr result (λ e. e ≡ NoMemory) }
{
    let simple = Box::new(alloc, simple)?;
    Ok(Expression::Simple(simple))
}

/// Two simple expressions that are compared.
pub fn compared(
    alloc: Global,
    left: SimpleExpression,
    operator: (Relator, Position),
    right: SimpleExpression,
) -> Result<Expression, ReadError>
    ensures ok { IfOk result (λ x. of_expression x ≡ compared_of operator.0 operator.1 (of_simple left (of no_terms [])) (of_simple right (of no_terms []))) }
    ensures err { IfErr result (λ e. e ≡ NoMemory) }
{
    let (relator, position) = operator;
    let left = Box::new(alloc, left)?;
    let right = Box::new(alloc, right)?;
    Ok(Expression::Relation {
        left,
        relator,
        position,
        right,
    })
}

/// The first term, with the sign before it.
pub fn leading(sign: Option<PlacedSign>, first: Term) -> SimpleExpression
    ensures { (more : Parsed) → of_simple result more ≡ leading_of sign (of_term first (of no_factors [])) more }
{
    match sign {
        Some(sign) => SimpleExpression::Signed(sign, first),
        None => SimpleExpression::Term(first),
    }
}

/// The sum of what was read and one more term.
pub fn sum(
    alloc: Global,
    left: SimpleExpression,
    operator: (Adder, Position),
    sign: Option<PlacedSign>,
    right: Term,
) -> Result<SimpleExpression, ReadError>
    ensures ok { IfOk result (λ x. (more : Parsed) → of_simple x more ≡ of_simple left (added_of operator.0 operator.1 sign (of_term right (of no_factors [])) more)) }
    ensures err { IfErr result (λ e. e ≡ NoMemory) }
{
    let (adder, position) = operator;
    let left = Box::new(alloc, left)?;
    Ok(SimpleExpression::Sum {
        left,
        adder,
        position,
        sign,
        right,
    })
}

/// A factor as a term.
pub fn lone(alloc: Global, factor: Factor) -> Result<Term, ReadError>
    ensures ok { IfOk result (λ x. (more : Parsed) → of_term x more ≡ of term (of_factor factor ∷ more ∷ [])) }
    ensures err { IfErr result (λ e. e ≡ NoMemory) }
{
    let factor = Box::new(alloc, factor)?;
    Ok(Term::Factor(factor))
}

/// The product of what was read and one more factor.
pub fn product(
    alloc: Global,
    left: Term,
    operator: (Multiplier, Position),
    sign: Option<PlacedSign>,
    right: Factor,
) -> Result<Term, ReadError>
    ensures ok { IfOk result (λ x. (more : Parsed) → of_term x more ≡ of_term left (multiplied_of operator.0 operator.1 sign (of_factor right) more)) }
    ensures err { IfErr result (λ e. e ≡ NoMemory) }
{
    let (multiplier, position) = operator;
    let left = Box::new(alloc, left)?;
    let right = Box::new(alloc, right)?;
    Ok(Term::Product {
        left,
        multiplier,
        position,
        sign,
        right,
    })
}

/// An expression in parentheses.
pub fn group(alloc: Global, position: Position, inner: Expression) -> Result<Factor, ReadError>
    ensures ok { IfOk result (λ x. of_factor x ≡ of group_factor (mark_at position ∷ of_expression inner ∷ word ∷ [])) }
    ensures err { IfErr result (λ e. e ≡ NoMemory) }
{
    let inner = Box::new(alloc, inner)?;
    Ok(Factor::Group { position, inner })
}

/// A factor behind `not`.
pub fn negation(alloc: Global, position: Position, operand: Factor) -> Result<Factor, ReadError>
    ensures ok { IfOk result (λ x. of_factor x ≡ closed negation (mark_at position ∷ of_factor operand ∷ [])) }
    ensures err { IfErr result (λ e. e ≡ NoMemory) }
{
    let operand = Box::new(alloc, operand)?;
    Ok(Factor::Negation { position, operand })
}

/// A field of what was read.
pub fn field_of(
    alloc: Global,
    owner: Designator,
    position: Position,
    name: Identifier,
) -> Result<Designator, ReadError>
    ensures ok { IfOk result (λ x. (more : Parsed) → named_with x more ≡ named_with owner (selector field (mark_at position ∷ name_of name ∷ more ∷ []))) }
    ensures err { IfErr result (λ e. e ≡ NoMemory) }
{
    let owner = Box::new(alloc, owner)?;
    Ok(Designator::Field {
        owner,
        position,
        field: name,
    })
}

/// What a pointer that was read points to.
pub fn target_of(
    alloc: Global,
    owner: Designator,
    position: Position,
) -> Result<Designator, ReadError>
    ensures ok { IfOk result (λ x. (more : Parsed) → named_with x more ≡ named_with owner (selector dereference (mark_at position ∷ more ∷ []))) }
    ensures err { IfErr result (λ e. e ≡ NoMemory) }
{
    let owner = Box::new(alloc, owner)?;
    Ok(Designator::Dereference { owner, position })
}

/// An element of an array that was read.
pub fn element_of(
    alloc: Global,
    owner: Designator,
    mark: IndexMark,
    position: Position,
    index: Expression,
) -> Result<Designator, ReadError>
    ensures ok { IfOk result (λ x. (more : Parsed) → indexed_with x more ≡ index_of mark owner position (of_expression index) more) }
    ensures closes { IfOk result (λ x. (more : Parsed) → indexed_with x (of last_index (word ∷ more ∷ [])) ≡ named_with x more) }
    ensures err { IfErr result (λ e. e ≡ NoMemory) }
{
    let owner = Box::new(alloc, owner)?;
    let index = Box::new(alloc, index)?;
    Ok(Designator::Index {
        owner,
        mark,
        position,
        index,
    })
}
