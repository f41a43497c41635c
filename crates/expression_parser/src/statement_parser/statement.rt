//! Reading statements.

ghost use Rattle.std.specs.Prelude.{◌≡◌, IfOk, List, []};
ghost use Rattle.pascal_grammar.specs.Productions.{no_statements};
ghost use Rattle.syntax_tree.specs.Expressions.{of};
ghost use Rattle.syntax_tree.specs.Statements.{of_statement, statements_of, compound_of, of_else, of_case_else, first_of, others_of, arms_end, of_arm, of_with};
ghost use Rattle.expression_parser.specs.Gives.{Gives};
ghost use Rattle.expression_parser.specs.statement_parser.Chains.{chain_at};
ghost use Rattle.expression_parser.specs.statement_parser.Reading.{within, statement_at, compound_at, statements_at, if_at, else_at, case_at, case_else_at, more_arms, arm_at, while_at, repeat_at, for_at, with_at, with_rest_at};

use crate::statement_parser::label::{next_label, next_labels};
use crate::statement_parser::list::{Arms, Statements};
use crate::statement_parser::lookahead::{
    BehindWith, StatementStart, arm_follows, behind_with, deeper, last_semicolon, read_direction,
    statement_start,
};
use crate::statement_parser::named::{next_named_statement, next_whole_designator};
use crate::statement_parser::node::{
    compound_node, else_node, for_node, if_node, while_node, with_body_node, with_next_node,
    with_node,
};
use crate::{ReadError, begins, identifier, mark, read_expression, skip, tail};
use pascal_grammar::{Kind, Lexeme, Omission};
use std::alloc::Global;
use syntax_tree::{CaseArm, CaseElse, CompoundStatement, ElsePart, Statement, WithRest};

#[cycle(statements)]
#[inline(never)]
#[tactic(auto, unfolding(crate::specs::statement_parser::Reading::statement_by))]
pub fn next_statement(
    alloc: Global,
    depth: u32,
    lexemes: &[Lexeme],
) -> Result<(Statement, &[Lexeme]), ReadError>
    ensures gives { Gives (λ x. (of_statement x.0, x.1.now)) result (statement_at depth (within depth) lexemes.now) }
{
    match statement_start(lexemes) {
        StatementStart::Compound => {
            let (compound, rest) = next_compound(alloc, depth, lexemes)?;
            Ok((compound_node(compound), rest))
        }
        StatementStart::If => next_if(alloc, depth, lexemes),
        StatementStart::Case => next_case(alloc, depth, lexemes),
        StatementStart::While => next_while(alloc, depth, lexemes),
        StatementStart::Repeat => next_repeat(alloc, depth, lexemes),
        StatementStart::For => next_for(alloc, depth, lexemes),
        StatementStart::With => next_with(alloc, depth, lexemes),
        StatementStart::Goto => Err(ReadError::LeftOut(Omission::GotoStatement, lexemes.len())),
        StatementStart::Inline => Err(ReadError::LeftOut(Omission::InlineStatement, lexemes.len())),
        StatementStart::Named => next_named_statement(alloc, depth, lexemes),
        StatementStart::Nothing => Ok((Statement::Empty, lexemes)),
    }
}

/// The statements between `begin`, which stands there, and `end`, and what stands behind them.
#[cycle(statements)]
#[inline(never)]
#[tactic(auto, unfolding(crate::specs::statement_parser::Reading::compound_at))]
pub fn next_compound(
    alloc: Global,
    depth: u32,
    lexemes: &[Lexeme],
) -> Result<(CompoundStatement, &[Lexeme]), ReadError>
    ensures gives { Gives (λ x. (compound_of x.0, x.1.now)) result (compound_at (within depth) lexemes.now) }
{
    let depth = deeper(depth, lexemes)?;
    let (position, rest) = mark(lexemes, Kind::Begin)?;
    let (statements, rest) = next_statements(alloc, depth, rest)?;
    let rest = skip(rest, Kind::End)?;
    Ok((statements.into_compound(position), rest))
}

// Statements with semicolons between them, at least one.
#[cycle(statements)]
#[inline(never)]
#[tactic(auto, unfolding(crate::specs::statement_parser::Reading::statements_at))]
fn next_statements(
    alloc: Global,
    depth: u32,
    lexemes: &[Lexeme],
) -> Result<(Statements, &[Lexeme]), ReadError>
    ensures gives { Gives (λ x. (statements_of x.0.items.items (of no_statements []), x.1.now)) result (statements_at depth (within depth) lexemes.now) }
{
    let mut all = Statements::new(alloc);
    let (first, mut rest) = next_statement(alloc, depth, lexemes)?;
    all.push(first)?;
    'semicolons: while begins(rest, Kind::Semicolon) {
        let (next, after) = next_statement(alloc, depth, tail(rest))?;
        all.push(next)?;
        rest = after;
    }
    Ok((all, rest))
}

#[cycle(statements)]
#[inline(never)]
#[tactic(auto, unfolding(crate::specs::statement_parser::Reading::if_at))]
fn next_if(
    alloc: Global,
    depth: u32,
    lexemes: &[Lexeme],
) -> Result<(Statement, &[Lexeme]), ReadError>
    ensures gives { Gives (λ x. (of_statement x.0, x.1.now)) result (if_at (within depth) lexemes.now) }
{
    let depth = deeper(depth, lexemes)?;
    let (position, rest) = mark(lexemes, Kind::If)?;
    let (condition, rest) = read_expression(alloc, depth, rest)?;
    let rest = skip(rest, Kind::Then)?;
    let (body, rest) = next_statement(alloc, depth, rest)?;
    let (otherwise, rest) = next_else(alloc, depth, rest)?;
    Ok((if_node(alloc, position, condition, body, otherwise)?, rest))
}

// The `else` of the innermost `if` that is open.
#[cycle(statements)]
#[inline(never)]
#[tactic(auto, unfolding(crate::specs::statement_parser::Reading::else_by))]
fn next_else(
    alloc: Global,
    depth: u32,
    lexemes: &[Lexeme],
) -> Result<(ElsePart, &[Lexeme]), ReadError>
    ensures gives { Gives (λ x. (of_else x.0, x.1.now)) result (else_at depth (within depth) lexemes.now) }
{
    if !begins(lexemes, Kind::Else) {
        return Ok((ElsePart::Absent, lexemes));
    }
    let rest = skip(lexemes, Kind::Else)?;
    let (body, rest) = next_statement(alloc, depth, rest)?;
    Ok((else_node(alloc, body)?, rest))
}

#[cycle(statements)]
#[inline(never)]
#[tactic(auto, unfolding(crate::specs::statement_parser::Reading::case_at))]
fn next_case(
    alloc: Global,
    depth: u32,
    lexemes: &[Lexeme],
) -> Result<(Statement, &[Lexeme]), ReadError>
    ensures gives { Gives (λ x. (of_statement x.0, x.1.now)) result (case_at (within depth) lexemes.now) }
{
    let depth = deeper(depth, lexemes)?;
    let (position, rest) = mark(lexemes, Kind::Case)?;
    let (selector, rest) = read_expression(alloc, depth, rest)?;
    let rest = skip(rest, Kind::Of)?;
    let (first, rest) = next_arm(alloc, depth, rest)?;
    let (arms, semicolon, rest) = next_arms(alloc, depth, first, rest)?;
    let (otherwise, rest) = next_case_else(alloc, depth, rest)?;
    let rest = skip(rest, Kind::End)?;
    Ok((
        arms.into_case(position, selector, semicolon, otherwise),
        rest,
    ))
}

// The arms of a `case`, of which the first was read, and whether a semicolon stands behind the last.
#[cycle(statements)]
#[inline(never)]
fn next_arms(
    alloc: Global,
    depth: u32,
    first: CaseArm,
    lexemes: &[Lexeme],
) -> Result<(Arms, bool, &[Lexeme]), ReadError>
    ensures first { IfOk result (λ x. first_of x.0.items.items ≡ of_arm first) }
    ensures gives { Gives (λ x. (others_of x.0.items.items (arms_end x.1), x.2.now)) result (chain_at (more_arms depth (within depth)) lexemes.now) }
{
    let mut all = Arms::new(alloc);
    all.push(first)?;
    let mut rest = lexemes;
    'arms: while arm_follows(rest) {
        let (next, after) = next_arm(alloc, depth, tail(rest))?;
        all.push(next)?;
        rest = after;
    }
    let (semicolon, rest) = last_semicolon(rest);
    Ok((all, semicolon, rest))
}

#[cycle(statements)]
#[inline(never)]
#[tactic(auto, unfolding(crate::specs::statement_parser::Reading::arm_at))]
fn next_arm(
    alloc: Global,
    depth: u32,
    lexemes: &[Lexeme],
) -> Result<(CaseArm, &[Lexeme]), ReadError>
    ensures gives { Gives (λ x. (of_arm x.0, x.1.now)) result (arm_at depth (within depth) lexemes.now) }
{
    let (first, rest) = next_label(alloc, depth, lexemes)?;
    let (labels, rest) = next_labels(alloc, depth, first, rest)?;
    let rest = skip(rest, Kind::Colon)?;
    let (body, rest) = next_statement(alloc, depth, rest)?;
    Ok((labels.into_arm(body), rest))
}

#[cycle(statements)]
#[inline(never)]
#[tactic(auto, unfolding(crate::specs::statement_parser::Reading::case_else_by))]
fn next_case_else(
    alloc: Global,
    depth: u32,
    lexemes: &[Lexeme],
) -> Result<(CaseElse, &[Lexeme]), ReadError>
    ensures gives { Gives (λ x. (of_case_else x.0, x.1.now)) result (case_else_at depth (within depth) lexemes.now) }
{
    if !begins(lexemes, Kind::Else) {
        return Ok((CaseElse::Absent, lexemes));
    }
    let rest = skip(lexemes, Kind::Else)?;
    let (statements, rest) = next_statements(alloc, depth, rest)?;
    Ok((statements.into_else(), rest))
}

#[cycle(statements)]
#[inline(never)]
#[tactic(auto, unfolding(crate::specs::statement_parser::Reading::while_at))]
fn next_while(
    alloc: Global,
    depth: u32,
    lexemes: &[Lexeme],
) -> Result<(Statement, &[Lexeme]), ReadError>
    ensures gives { Gives (λ x. (of_statement x.0, x.1.now)) result (while_at (within depth) lexemes.now) }
{
    let depth = deeper(depth, lexemes)?;
    let (position, rest) = mark(lexemes, Kind::While)?;
    let (condition, rest) = read_expression(alloc, depth, rest)?;
    let rest = skip(rest, Kind::Do)?;
    let (body, rest) = next_statement(alloc, depth, rest)?;
    Ok((while_node(alloc, position, condition, body)?, rest))
}

#[cycle(statements)]
#[inline(never)]
#[tactic(auto, unfolding(crate::specs::statement_parser::Reading::repeat_at))]
fn next_repeat(
    alloc: Global,
    depth: u32,
    lexemes: &[Lexeme],
) -> Result<(Statement, &[Lexeme]), ReadError>
    ensures gives { Gives (λ x. (of_statement x.0, x.1.now)) result (repeat_at (within depth) lexemes.now) }
{
    let depth = deeper(depth, lexemes)?;
    let (position, rest) = mark(lexemes, Kind::Repeat)?;
    let (statements, rest) = next_statements(alloc, depth, rest)?;
    let rest = skip(rest, Kind::Until)?;
    let (condition, rest) = read_expression(alloc, depth, rest)?;
    Ok((statements.into_repeat(position, condition), rest))
}

#[cycle(statements)]
#[inline(never)]
#[tactic(auto, unfolding(crate::specs::statement_parser::Reading::for_at))]
fn next_for(
    alloc: Global,
    depth: u32,
    lexemes: &[Lexeme],
) -> Result<(Statement, &[Lexeme]), ReadError>
    ensures gives { Gives (λ x. (of_statement x.0, x.1.now)) result (for_at (within depth) lexemes.now) }
{
    let depth = deeper(depth, lexemes)?;
    let (position, rest) = mark(lexemes, Kind::For)?;
    let (variable, rest) = identifier(rest)?;
    let rest = skip(rest, Kind::Becomes)?;
    let (first, rest) = read_expression(alloc, depth, rest)?;
    let (direction, rest) = read_direction(rest)?;
    let (last, rest) = read_expression(alloc, depth, rest)?;
    let rest = skip(rest, Kind::Do)?;
    let (body, rest) = next_statement(alloc, depth, rest)?;
    let statement = for_node(alloc, position, variable, first, direction, last, body)?;
    Ok((statement, rest))
}

#[cycle(statements)]
#[inline(never)]
#[tactic(auto, unfolding(crate::specs::statement_parser::Reading::with_at))]
fn next_with(
    alloc: Global,
    depth: u32,
    lexemes: &[Lexeme],
) -> Result<(Statement, &[Lexeme]), ReadError>
    ensures gives { Gives (λ x. (of_statement x.0, x.1.now)) result (with_at (within depth) lexemes.now) }
{
    let depth = deeper(depth, lexemes)?;
    let (position, rest) = mark(lexemes, Kind::With)?;
    let (designator, rest) = next_whole_designator(alloc, depth, rest)?;
    let (behind, rest) = next_with_rest(alloc, depth, rest)?;
    Ok((with_node(alloc, position, designator, behind)?, rest))
}

#[cycle(statements)]
#[inline(never)]
#[tactic(auto, unfolding(crate::specs::statement_parser::Reading::with_rest_by))]
fn next_with_rest(
    alloc: Global,
    depth: u32,
    lexemes: &[Lexeme],
) -> Result<(WithRest, &[Lexeme]), ReadError>
    ensures gives { Gives (λ x. (of_with x.0, x.1.now)) result (with_rest_at depth (within depth) lexemes.now) }
{
    match behind_with(lexemes) {
        BehindWith::Comma => {
            let depth = deeper(depth, lexemes)?;
            let rest = skip(lexemes, Kind::Comma)?;
            let (designator, rest) = next_whole_designator(alloc, depth, rest)?;
            let (behind, rest) = next_with_rest(alloc, depth, rest)?;
            Ok((with_next_node(alloc, designator, behind)?, rest))
        }
        BehindWith::Cast => Err(ReadError::LeftOut(Omission::WithCast, lexemes.len())),
        BehindWith::Do => {
            let rest = skip(lexemes, Kind::Do)?;
            let (body, rest) = next_statement(alloc, depth, rest)?;
            Ok((with_body_node(alloc, body)?, rest))
        }
    }
}
