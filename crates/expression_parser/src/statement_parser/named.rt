//! Statements that begin with a designator.

ghost use Rattle.syntax_tree.specs.Statements.{of_statement, designator_of};
ghost use Rattle.expression_parser.specs.Gives.{Gives};
ghost use Rattle.expression_parser.specs.statement_parser.Reading.{named_statement_at, named_with, after_at, called_at, designator_at};

use crate::statement_parser::lookahead::{
    BehindArguments, BehindDesignator, behind_arguments, behind_designator,
};
use crate::statement_parser::node::{assignment_node, bare_call_node, call_node};
use crate::{ReadError, read_arguments, read_designator, read_expression, skip};
use pascal_grammar::{Kind, Lexeme, Omission};
use std::alloc::Global;
use syntax_tree::{Designator, Statement};

/// An assignment or a call, and what stands behind it.
#[tactic(auto, unfolding(crate::specs::statement_parser::Reading::named_statement_at))]
pub fn next_named_statement(
    alloc: Global,
    depth: u32,
    lexemes: &[Lexeme],
) -> Result<(Statement, &[Lexeme]), ReadError>
    ensures gives { Gives (λ x. (of_statement x.0, x.1.now)) result (named_statement_at depth lexemes.now) }
{
    let (designator, rest) = read_designator(alloc, depth, lexemes)?;
    next_after(alloc, depth, designator, rest)
}

#[tactic(auto, unfolding(crate::specs::statement_parser::Reading::after_by))]
fn next_after(
    alloc: Global,
    depth: u32,
    designator: Designator,
    lexemes: &[Lexeme],
) -> Result<(Statement, &[Lexeme]), ReadError>
    ensures gives { Gives (λ x. (of_statement x.0, x.1.now)) result (named_with designator (after_at depth lexemes.now)) }
{
    match behind_designator(lexemes) {
        BehindDesignator::Becomes => {
            let rest = skip(lexemes, Kind::Becomes)?;
            let (value, rest) = read_expression(alloc, depth, rest)?;
            Ok((assignment_node(alloc, designator, value)?, rest))
        }
        BehindDesignator::Arguments => next_call(alloc, depth, designator, lexemes),
        BehindDesignator::Nothing => Ok((bare_call_node(alloc, designator)?, lexemes)),
    }
}

#[tactic(auto, using(crate::proofs::statement_parser::Rows::arguments_same), unfolding(crate::specs::statement_parser::Reading::called_at, crate::specs::statement_parser::Reading::statement_end_by))]
fn next_call(
    alloc: Global,
    depth: u32,
    callee: Designator,
    lexemes: &[Lexeme],
) -> Result<(Statement, &[Lexeme]), ReadError>
    ensures gives { Gives (λ x. (of_statement x.0, x.1.now)) result (named_with callee (called_at depth lexemes.now)) }
{
    let (arguments, rest) = read_arguments(alloc, depth, lexemes)?;
    match behind_arguments(rest) {
        BehindArguments::Becomes => Err(ReadError::LeftOut(Omission::AssignedCast, rest.len())),
        BehindArguments::Caret => Err(ReadError::LeftOut(Omission::DereferencedCast, rest.len())),
        BehindArguments::Dot => Err(ReadError::LeftOut(Omission::SelectedCast, rest.len())),
        BehindArguments::Bracket => Err(ReadError::LeftOut(Omission::IndexedCast, rest.len())),
        BehindArguments::Nothing => Ok((call_node(alloc, callee, arguments)?, rest)),
    }
}

/// A designator by itself, and what stands behind it.
#[tactic(auto, unfolding(crate::specs::statement_parser::Reading::designator_at))]
pub fn next_whole_designator(
    alloc: Global,
    depth: u32,
    lexemes: &[Lexeme],
) -> Result<(Designator, &[Lexeme]), ReadError>
    ensures gives { Gives (λ x. (designator_of x.0, x.1.now)) result (designator_at depth lexemes.now) }
{
    read_designator(alloc, depth, lexemes)
}
