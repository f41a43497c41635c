//! Constants, types and variables as long as a name stands in front.

ghost use Rattle.std.specs.Prelude.{◌≡◌, ◌≤◌, IfOk, length, suc};
ghost use Rattle.syntax_tree.specs.source_tree.Declarations.{constants_of, types_of, variables_of};
ghost use Rattle.expression_parser.specs.Gives.{Gives};
ghost use Rattle.tp_parser.specs.declaration_parser.Reading.{constants_at, types_at, variables_at};

use crate::declaration_parser::item::{next_constant, next_type, next_variable};
use crate::declaration_parser::lookahead::is_named;
use expression_parser::ReadError;
use pascal_grammar::Lexeme;
use std::alloc::Global;
use syntax_tree::source_tree::{ConstantDeclaration, TypeDeclaration, VariableDeclaration};
use type_parser::parameter_parser::push;

/// Constants, at least one, and what stands behind them.
#[tactic(auto, unfolding(crate::specs::declaration_parser::Reading::constants_at))]
pub fn next_constants(
    alloc: Global,
    depth: u32,
    lexemes: &[Lexeme],
) -> Result<(Vec<ConstantDeclaration>, &[Lexeme]), ReadError>
    ensures gives { Gives (λ x. (constants_of x.0.items, x.1.now)) result (constants_at depth lexemes.now) }
    ensures shorter { IfOk result (λ x. suc (length x.1.now) ≤ length lexemes.now) }
{
    let mut all = Vec::new(alloc);
    let (first, mut rest) = next_constant(alloc, depth, lexemes)?;
    push(&mut all, first)?;
    'names: while is_named(rest) {
        let (next, after) = next_constant(alloc, depth, rest)?;
        push(&mut all, next)?;
        rest = after;
    }
    Ok((all, rest))
}

/// Types, at least one, and what stands behind them.
#[tactic(auto, unfolding(crate::specs::declaration_parser::Reading::types_at))]
pub fn next_types(
    alloc: Global,
    depth: u32,
    lexemes: &[Lexeme],
) -> Result<(Vec<TypeDeclaration>, &[Lexeme]), ReadError>
    ensures gives { Gives (λ x. (types_of x.0.items, x.1.now)) result (types_at depth lexemes.now) }
    ensures shorter { IfOk result (λ x. suc (length x.1.now) ≤ length lexemes.now) }
{
    let mut all = Vec::new(alloc);
    let (first, mut rest) = next_type(alloc, depth, lexemes)?;
    push(&mut all, first)?;
    'names: while is_named(rest) {
        let (next, after) = next_type(alloc, depth, rest)?;
        push(&mut all, next)?;
        rest = after;
    }
    Ok((all, rest))
}

/// Variables, of one type at least, and what stands behind them.
#[tactic(auto, unfolding(crate::specs::declaration_parser::Reading::variables_at))]
pub fn next_variables(
    alloc: Global,
    depth: u32,
    lexemes: &[Lexeme],
) -> Result<(Vec<VariableDeclaration>, &[Lexeme]), ReadError>
    ensures gives { Gives (λ x. (variables_of x.0.items, x.1.now)) result (variables_at depth lexemes.now) }
    ensures shorter { IfOk result (λ x. suc (length x.1.now) ≤ length lexemes.now) }
{
    let mut all = Vec::new(alloc);
    let (first, mut rest) = next_variable(alloc, depth, lexemes)?;
    push(&mut all, first)?;
    'names: while is_named(rest) {
        let (next, after) = next_variable(alloc, depth, rest)?;
        push(&mut all, next)?;
        rest = after;
    }
    Ok((all, rest))
}
